//! What the definitions that contracts cite come to, in the words of the subject. Each law is what a function with an
//! empty body ensures.
ghost use Rattle.db_migrate.specs.Laws.{MigratingBrings};

/// Each front of the changes that bring a database to the present version leaves files that read as the state still by
/// the old one, or stand for it by the present one, and all of them leave the state's files.
pub fn migrating_brings()
    ensures { MigratingBrings }
{}
