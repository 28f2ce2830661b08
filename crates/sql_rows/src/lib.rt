//! Proves laws of rows in SQL, for any tables: what INSERT, UPDATE, SELECT and CREATE do, and what a transaction
//! leaves. There is no code here.
#![tactic(auto)]
