//! Opens the hub in a database file for some work, and closes it after that.
ghost use Rattle.hub_tables.specs.Register.{HoldsRegister};
ghost use Rattle.hub_sql.specs.Stored.{content, honest};

use crate::fault::BeginFault;
use crate::hub_file::{close, opened};
use crate::key_change::{KeyChange, change_in};
use crate::keys::KeyRequest;
use crate::serve::serve_over;
use crate::status_of;
use crate::tasks::obey;
use hub_app::ServeWords;
use hub_commands::Hub;
use hub_sql::SqliteStore;
use hub_store::Store;
use sqlite::Alter;
use sqlite_disk::{Start, Unknown};
use sqlite_std_file::FileFrom;
use sqlite_store::FileStore;

/// What to do with a hub.
#[derive(Drop)]
pub(crate) enum HubWork<'a> {
    /// One command.
    Command(KeyRequest<'a>),
    /// Serve it over the network.
    Serve(ServeWords<'a>),
}

/// What to do with the database file of a hub.
#[derive(Drop)]
pub(crate) enum Work<'a> {
    /// Something that a hub does.
    Hub(HubWork<'a>),
    /// Change the key of one party.
    Rekey(KeyChange<'a>),
}

// The path of the database file.
fn db_of<'a>(work: &Work<'a>) -> &'a str {
    match work {
        Work::Hub(HubWork::Command(asked)) => asked.db,
        Work::Hub(HubWork::Serve(words)) => words.db,
        Work::Rekey(change) => change.db,
    }
}

// Does the work over the hub in this store, and gives the store back, even if nothing was done.
#[inline(never)]
fn over_hub<S: Store + Drop>(
    rt: &HostRuntime,
    store: S,
    work: HubWork<'_>,
) -> (Result<u8, BeginFault>, S)
    requires { S.honest store → HoldsRegister (S.content store) }
{
    let mut hub = match Hub::new(rt.alloc(), store) {
        Ok(hub) => hub,
        Err((store, fault)) => return (Err(BeginFault::Store(fault)), store),
    };
    let status = match work {
        HubWork::Command(asked) => obey(rt, &mut hub, asked),
        HubWork::Serve(words) => serve_over(rt, &mut hub, &words),
    };
    let (_register, store) = hub.into_store();
    (status, store)
}

// Does the work over this store, and gives it back.
#[inline(never)]
fn over_store<S: Store + Drop>(
    rt: &HostRuntime,
    store: S,
    work: Work<'_>,
) -> (Result<u8, BeginFault>, S)
    requires { S.honest store → HoldsRegister (S.content store) }
{
    match work {
        Work::Hub(work) => over_hub(rt, store, work),
        Work::Rekey(change) => {
            let mut store = store;
            let status = change_in(rt, &mut store, change);
            (status, store)
        }
    }
}

// Does the work over these tables, and gives them back. Generic over where they are kept, because the prover takes longer
// for tables in files.
#[inline(never)]
fn over_tables<A: Alter + Drop>(
    rt: &HostRuntime,
    tables: SqliteStore<A>,
    work: Work<'_>,
) -> (Result<u8, BeginFault>, SqliteStore<A>)
    requires { honest A.Store tables → HoldsRegister (content A.Store tables) }
{
    over_store(rt, tables, work)
}

// Does the work over the hub in a file, and closes the file.
#[inline(never)]
fn over_file<S: Start>(rt: &HostRuntime, work: Work<'_>, start: S) -> Result<u8, BeginFault> {
    let tables = opened(rt, db_of(&work), start)?;
    let (status, tables) = over_tables::<FileStore<FileFrom<S>>>(rt, tables, work);
    close(tables);
    status
}

/// Does the work over the hub in the database file that it names, and returns the exit status.
pub(crate) fn over_a_hub(rt: &HostRuntime, work: Work<'_>) -> u8 {
    status_of(rt, over_file(rt, work, Unknown))
}
