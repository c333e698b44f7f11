// How far a reader has come: the body `B` says what is still to come, and `F` is the fault of a sheet or of a table.
#[derive(Clone, Copy)]
pub enum Stage<B, F> {
    // HEAD is due.
    Start,
    // HEAD was read, or a table has none: what is still to come.
    Within(B),
    // END was read.
    Done,
    // A fault was found, and is found again by every further call.
    Failed(F),
}
