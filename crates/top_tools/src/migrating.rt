//! The command `migrate`.
ghost use Rattle.top_base.specs.Given.{migrate_given_in};
ghost use Rattle.top_base.specs.Performs.{RunsOnStore};
ghost use Rattle.top_tools.specs.Migrate.{migrate_command};

use crate::files::write_code_file;
use lif_outside::Store;
use std::alloc::Global;
use top_base::{Line, MigrateWords, Outcome, Status, read_file_of_code};

/// Reads a code's file, in either version, and writes the code anew, in version 2, whether it is accepted or not. All memory is
/// taken before a file is made.
pub fn migrate<'a, S: Store>(alloc: Global, words: &MigrateWords<'a>, store: &mut S) -> Outcome<'a>
    ensures { RunsOnStore S.Store
        (migrate_command (migrate_given_in words.now)) store.old store.new result }
{
    if words.new == words.old {
        return Outcome {
            status: Status::SamePath,
            line: Line::same_path(words.new),
        };
    }
    match read_file_of_code(alloc, store, words.old) {
        Ok(code) => write_code_file(alloc, words.new, &code, Line::migrated(&code), store),
        Err(refused) => refused,
    }
}
