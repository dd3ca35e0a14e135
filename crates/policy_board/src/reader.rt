//! A reader of the policy. It waits for nobody, and never reads an older policy than before.
ghost use Rattle.std.specs.Prelude.{◌≡◌, IfSome, MatchResult};
ghost use Rattle.rbac_policy.specs.Opening.{opening_entries};
ghost use Rattle.rbac_policy.specs.StandsFor.{StandsFor};
ghost use Rattle.rbac_admin.specs.PolicyLists.{Begins};

use crate::board_list::BoardPrefix;
use crate::board_name::BoardName;
use crate::published::{PolicyReader, PolicyWriter, PublishedPolicy, PublishedRule, SeenRule};
use left_right::reader;
use rbac_policy::commands::Entry;
use rbac_policy::policy::Policy;
use std::collections::LinkedList;
use std::marker::Model;

/// A reader that is not reading: `enter` begins a read, unless it is refused. A contract sees the
/// policy list that it has seen.
#[derive(Drop)]
pub struct IdleReader<B: BoardName> {
    reader: PolicyReader<B>,
    prefix: BoardPrefix<B>,
}

impl<B: BoardName> Model for IdleReader<B> {
    ghost use Rattle.std.specs.Prelude.{◌≡◌, List};
    ghost use Rattle.rbac_policy.specs.declared.commands.Entry.{Entry};
    ghost use Rattle.left_right.specs.Sides.{view as seen_at};

    ghost Value = { List Entry };

    ghost view = { λ s. s.prefix };

    ghost invariant = { λ s. seen_at s.reader.place ≡ s.prefix };
}

/// A read. A contract sees the policy list that the policy stands for. End it by `leave`: a
/// publication waits for it.
pub struct Reading<B: BoardName> {
    reading: reader::Reading<PublishedPolicy, LinkedList<Entry>, PublishedRule<B>>,
    prefix: BoardPrefix<B>,
}

impl<B: BoardName> Model for Reading<B> {
    ghost use Rattle.std.specs.Prelude.{◌≡◌, List};
    ghost use Rattle.rbac_policy.specs.declared.commands.Entry.{Entry};
    ghost use Rattle.rbac_policy.specs.StandsFor.{StandsFor};
    ghost use Rattle.left_right.specs.Sides.{view as seen_at};

    ghost Value = { List Entry };

    ghost view = { λ s. s.prefix };

    ghost invariant = { λ s. (seen_at s.reading.place ≡ s.prefix)
        × StandsFor s.reading.part.value.policy s.prefix };
}

impl<B: BoardName> IdleReader<B> {
    /// A reader that has seen the opening entries, where `left_right` has a place for it.
    pub(crate) fn new(writer: &PolicyWriter<B>, opening: &BoardPrefix<B>) -> Option<IdleReader<B>>
        requires { opening.now ≡ opening_entries }
        ensures { IfSome result (λ reader. reader ≡ opening_entries) }
    {
        match writer.factory().reader() {
            Ok(reader) => Some(IdleReader {
                reader,
                prefix: opening.copied(),
            }),
            Err(_) => None,
        }
    }

    /// Reads the policy that was published last. What is read begins with all that this reader has
    /// seen. It waits for nobody.
    ///
    /// # Errors
    ///
    /// The reader as it was, where `left_right` refuses the read. It does so only once its writer
    /// has ended, which is after all commands (`ClosedBoard::journal`); no clause of the kit says
    /// so.
    pub fn enter(self) -> Result<Reading<B>, IdleReader<B>>
        ensures { MatchResult result (λ reading. Begins self reading) (λ reader. reader ≡ self) }
    {
        let IdleReader { reader, prefix } = self;
        match reader.enter_as::<SeenRule<B>>() {
            Ok(reading) => {
                let prefix = BoardPrefix::of(&reading.get().book_prefix);
                Ok(Reading { reading, prefix })
            }
            Err(reader) => Err(IdleReader { reader, prefix }),
        }
    }

    /// The list that it has seen.
    pub fn prefix(&self) -> &BoardPrefix<B>
        ensures { result.now ≡ self.now }
    {
        &self.prefix
    }
}

impl<B: BoardName> Reading<B> {
    /// The policy that is read.
    pub fn policy(&self) -> &Policy
        ensures { StandsFor result.now self.now }
    {
        &self.reading.get().policy
    }

    /// The list that the policy stands for.
    pub fn prefix(&self) -> &BoardPrefix<B>
        ensures { result.now ≡ self.now }
    {
        &self.prefix
    }

    /// Ends the read.
    pub fn leave(self) -> IdleReader<B>
        ensures { result ≡ self }
    {
        let Reading { reading, prefix } = self;
        IdleReader {
            reader: reading.leave(),
            prefix,
        }
    }
}
