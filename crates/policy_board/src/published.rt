//! What readers are shown, and the rule under which they read it.
ghost use Rattle.std.specs.Prelude.{◌≡◌};

use crate::board_list::BookPrefix;
use crate::board_name::BoardName;
use crossbeam_utils::rule::{Outcome, Protocol};
use left_right::Absorb;
use left_right::reader::Reader;
use left_right::writer::Writer;
use rbac_policy::commands::Entry;
use rbac_policy::policy::Policy;
use std::alloc::AllocError;
use std::collections::LinkedList;
use std::marker::PhantomData;

/// The policy, with the list that it stands for.
#[derive(Drop)]
pub struct PublishedPolicy {
    pub policy: Policy,
    pub book_prefix: BookPrefix,
}

/// What the writer does to each of the two copies of the policy.
#[derive(Drop)]
pub enum Publication {
    /// Does nothing. It is put before the first entry, to make room in the log for later ones.
    Room,
    /// An entry, with the list that ends with it.
    Add {
        entry: Entry,
        book_prefix: BookPrefix,
    },
}

impl Absorb<Publication> for PublishedPolicy {
    ghost use Rattle.policy_board.specs.Inner.Steps.{after_publication};

    type State = (Policy, BookPrefix);

    ghost state = { λ s. (s.policy, s.book_prefix) };

    ghost applied = { λ s publication. after_publication s publication };

    ghost never_fails = { Unit {0} };

    fn absorb_first(
        &mut self,
        publication: &Publication,
        _other: &PublishedPolicy,
    ) -> Result<(), AllocError> {
        match publication {
            Publication::Room => {}
            Publication::Add { entry, book_prefix } => {
                self.policy.absorb(entry);
                self.book_prefix = book_prefix.copied();
            }
        }
        Ok(())
    }
}

/// The rule of the published policy, as `left_right` asks for one: `IsKept` holds of what is shown
/// and of what each reader and the writer have seen.
pub struct PublishedRule<B> {
    of: PhantomData<B>,
}

impl<B: BoardName> Protocol<PublishedPolicy, LinkedList<Entry>> for PublishedRule<B> {
    ghost use Rattle.std.specs.Prelude.{◌≡◌};
    ghost use Rattle.rbac_policy.specs.Opening.{opening_entries};
    ghost use Rattle.policy_board.specs.Rule.{IsKept};

    ghost holds = { λ x views. (x.book_prefix.book ≡ B.book)
        × IsKept x.policy x.book_prefix.list views };

    ghost first = { opening_entries };
}

/// What a publication ensures for the writer, and a read for its reader: `IsSeen` relates what each
/// had seen before to what it sees now.
pub struct SeenRule<B> {
    of: PhantomData<B>,
}

impl<B: BoardName> Outcome<PublishedPolicy, LinkedList<Entry>> for SeenRule<B> {
    ghost use Rattle.std.specs.Prelude.{◌≡◌};
    ghost use Rattle.policy_board.specs.Rule.{IsSeen};

    ghost then = { λ v x y w. (y.book_prefix.book ≡ B.book)
        × IsSeen v y.policy y.book_prefix.list w };
}

pub type PolicyReader<B> = Reader<PublishedPolicy, LinkedList<Entry>, PublishedRule<B>>;

pub type PolicyWriter<B> = Writer<
    PublishedPolicy,
    Publication,
    LinkedList<Entry>,
    PublishedRule<B>,
>;
