//! The one writer of the policy, with the list of what it has published.
ghost use Rattle.std.specs.Prelude.{◌≡◌, [], ◌∷◌, ◌++◌, ◌<◌, drop, length, IfOk, IfSome};
ghost use Rattle.rbac_policy.specs.Opening.{opening_entries};
ghost use Rattle.rbac_policy.specs.StandsFor.{StandsFor};
ghost use Rattle.rbac_admin.specs.PolicyLists.{Begins, IsAccepted};
ghost use Rattle.rbac_admin.specs.Room.{most_entries};
ghost use Rattle.policy_board.specs.BookPrefixes.{prefix_in_book};
ghost use Rattle.policy_board.specs.Inner.Publishing.{IsPublishing};

use crate::board_list::{BoardPrefix, SharedLength};
use crate::board_name::BoardName;
use crate::published::{PolicyWriter, Publication, PublishedPolicy, SeenRule};
use crate::reader::IdleReader;
use rbac_policy::commands::Entry;
use rbac_policy::policy::Policy;
use std::marker::Model;
use std::sync::Wait;

/// The writer. A contract sees the list of all that is published. End it by `take`.
pub struct Publisher<B: BoardName> {
    writer: PolicyWriter<B>,
    head: SharedLength<B>,
}

impl<B: BoardName> Model for Publisher<B> {
    ghost use Rattle.std.specs.Prelude.{List, drop};
    ghost use Rattle.rbac_policy.specs.declared.commands.Entry.{Entry};
    ghost use Rattle.policy_board.specs.Inner.Publishing.{IsPublishing};

    ghost Value = { List Entry };

    ghost view = { λ p. p.writer.desk.shown.value.book_prefix.list };

    ghost invariant = { λ p. IsPublishing B.book p.writer.desk.shown.value.policy
        p.writer.desk.shown.value.book_prefix (drop p.writer.behind p.writer.log.items) };
}

/// Has the writer take up the publication. If memory is refused, it asks again. `Publisher::new`
/// made the room, so the first turn does it.
fn append<B: BoardName, R: Wait>(
    rt: &R,
    writer: PolicyWriter<B>,
    publication: Publication,
) -> PolicyWriter<B>
    ensures shown { result.desk ≡ writer.desk }
    ensures pending { drop result.behind result.log.items ≡ drop writer.behind writer.log.items ++
        publication ∷ [] }
{
    let mut writer = writer;
    let mut publication = publication;
    for _ in rt.forever() {
        match writer.append(publication) {
            Ok(()) => return writer,
            Err(back) => publication = back,
        }
    }
    unreachable!()
}

/// Adds the entry to the board's list, whose entries exist in the proofs alone: what runs raises
/// the list's length by one. No other thread does so meanwhile; so the first turn does it.
fn add_entry<B: BoardName, R: Wait>(
    rt: &R,
    head: &SharedLength<B>,
    prefix: BoardPrefix<B>,
    entry: &Entry,
) -> BoardPrefix<B>
    requires room { length prefix < most_entries }
    requires accepted { IsAccepted prefix entry.now }
    ensures { result ≡ prefix ++ entry.now ∷ [] }
{
    let mut prefix = prefix;
    for _ in rt.forever() {
        if prefix.add(head, entry) {
            return prefix;
        }
    }
    unreachable!()
}

/// Shows readers one entry more. It waits for those that still read the other copy.
fn show<B: BoardName, R: Wait>(
    rt: &R,
    writer: PolicyWriter<B>,
    entry: Entry,
    prefix: &BoardPrefix<B>,
) -> PolicyWriter<B>
    requires list { prefix.now ≡ writer.desk.shown.value.book_prefix.list ++ entry ∷ [] }
    requires accepted { IsAccepted writer.desk.shown.value.book_prefix.list entry }
    requires before { IsPublishing B.book writer.desk.shown.value.policy
        writer.desk.shown.value.book_prefix (drop writer.behind writer.log.items) }
    ensures shown { result.desk.shown.value.book_prefix ≡ prefix_in_book B.book prefix.now }
    ensures after { IsPublishing B.book result.desk.shown.value.policy
        result.desk.shown.value.book_prefix (drop result.behind result.log.items) }
{
    let publication = Publication::Add {
        entry,
        book_prefix: prefix.book_prefix(),
    };
    let writer = append(rt, writer, publication);
    let (writer, published) = writer.publish_as::<SeenRule<B>, R>(rt);
    match published {
        Ok(()) => writer,
        Err(_) => unreachable!(),
    }
}

impl<B: BoardName> Publisher<B> {
    /// A publisher of this writer, which shows the opening policy. A publication that does nothing
    /// (`Publication::Room`) makes the room in the writer's log for those that come later.
    ///
    /// # Errors
    ///
    /// The writer, where memory was refused for that.
    pub fn new(
        writer: PolicyWriter<B>,
        head: SharedLength<B>,
    ) -> Result<Publisher<B>, PolicyWriter<B>>
        requires { IsPublishing B.book writer.desk.shown.value.policy
            writer.desk.shown.value.book_prefix (drop writer.behind writer.log.items) }
        ensures { IfOk result (λ publisher. publisher ≡ writer.desk.shown.value.book_prefix.list) }
    {
        let mut writer = writer;
        match writer.append(Publication::Room) {
            Ok(()) => Ok(Publisher { writer, head }),
            Err(_) => Err(writer),
        }
    }

    /// The policy that is published.
    pub fn policy(&self) -> &Policy
        ensures { StandsFor result.now self.now }
    {
        &self.writer.published().policy
    }

    /// The list that is published.
    pub fn prefix(&self) -> BoardPrefix<B>
        ensures { result ≡ self.now }
    {
        BoardPrefix::of(&self.writer.published().book_prefix)
    }

    /// A reader that has seen the opening entries, where `left_right` has a place for it.
    pub fn reader(&self, opening: &BoardPrefix<B>) -> Option<IdleReader<B>>
        requires { opening.now ≡ opening_entries }
        ensures { IfSome result (λ reader. reader ≡ opening_entries) }
    {
        IdleReader::new(&self.writer, opening)
    }

    /// Checks that nothing is unpublished: then what `known` has seen is a beginning of the
    /// published list. That is always so at the first look, since each entry is published as soon
    /// as it is added, and no other thread adds any. The check is there for the proof.
    pub fn confirm_all_published<R: Wait>(&self, rt: &R, known: &BoardPrefix<B>)
        ensures { Begins known.now self.now }
    {
        let prefix = self.prefix();
        for _ in rt.forever() {
            if prefix.is_all_published(&self.head, known) {
                return;
            }
        }
        unreachable!()
    }

    /// Adds the entry to the list, and shows it to the readers. It waits for those that still read
    /// the other copy.
    pub fn publish<R: Wait>(self, rt: &R, entry: Entry) -> Publisher<B>
        requires { IsAccepted self entry }
        ensures { result ≡ self ++ entry ∷ [] }
    {
        let prefix = self.prefix();
        let Publisher { writer, head } = self;
        let prefix = add_entry(rt, &head, prefix, &entry);
        let writer = show(rt, writer, entry, &prefix);
        Publisher { writer, head }
    }

    /// Waits for the readers, and ends the writer.
    pub fn take<R: Wait>(self, rt: &R) {
        let Publisher { writer, head: _ } = self;
        writer.take(rt);
    }
}
