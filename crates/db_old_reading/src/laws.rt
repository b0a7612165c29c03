//! What the definitions that contracts cite come to, in the words of the subject. Each law is what a function with an
//! empty body ensures.
ghost use Rattle.db_old_reading.specs.Laws.{FilesMigrateOnce};

/// For a migration files open in at most one way.
pub fn files_migrate_once()
    ensures { FilesMigrateOnce }
{}
