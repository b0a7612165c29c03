// What is under way in a database.

/// What is under way in a database.
#[derive(Clone, Copy, Debug, PartialEq, Eq)]
pub enum State<R> {
    /// Nothing: the files are those of the rows.
    Closed,
    /// A cell is put, and is read from the stage until then.
    Put { key: R },
    /// A cell is dropped.
    Drop { key: R },
    /// All files are made anew.
    Rebuild,
}
