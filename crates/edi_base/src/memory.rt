use std::alloc::AllocError;

/// Memory ran out.
pub type MemoryFault = AllocError;
