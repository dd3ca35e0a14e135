//! The one list of accepted entries, which exists in the proofs alone, and what was seen of it.
//!
//! What runs is one atomic word, the length of the list (`SharedLength`), and a count in each
//! `BoardPrefix`. `Seen`, `Offer` and `pen` are tokens of the kit's `logbook` without any content:
//! by them the proofs know the entries. `Seen` stands for what was seen of the list, `Offer` for
//! the update that a step is to make, and a pen for the right to write a word that lies outside the
//! book. `SharedLength` is a word of the book, so its step passes an empty pen (`no_pen`).
ghost use Rattle.std.specs.Prelude.{◌≡◌, [], ◌<◌, ◌≤◌, ◌==◌, ◌^◌, ◌++◌, ◌∷◌, length, MatchBool};
ghost use Rattle.std.specs.Prelude.{IfSome, IsTrue};
ghost use Rattle.rbac_policy.specs.Opening.{opening_entries};
ghost use Rattle.rbac_admin.specs.PolicyLists.{Begins, IsAccepted, IsPolicyList};
ghost use Rattle.policy_board.specs.Inner.Book.{head_of};

use crate::board_name::BoardName;
use crate::growth_rule::{Adding, GrowthRule, Looking, NoGain};
use logbook::{Offer, Seen, Start, Word};
use rbac_policy::commands::Entry;
use rbac_policy::sizes::OPENING_ENTRIES;
use std::marker::{Model, PhantomData};

/// How many entries a policy opens with.
const OPENING: u64 = OPENING_ENTRIES as u64;

/// A list with the opening entries alone, which no board has yet.
pub struct FreshList {
    head: Word<Entry, u64, GrowthRule>,
    seen: Seen<Entry, u64, GrowthRule>,
    pub ghost opening: { seen.log ≡ opening_entries },
    pub ghost head_is: { head ≡ head_of seen.book },
}

impl FreshList {
    /// A new list, in a book of its own. No contract says which book: whoever has the list knows it
    /// as `seen.book`.
    pub fn new() -> FreshList {
        // A book has two words: the length of the list, and one that stays 0 here.
        let (seen, mut first, _second) = Seen::open(Start::alone(), OPENING, 0);
        FreshList {
            head: Word::tracked(OPENING, &mut first),
            seen,
        }
    }

    /// Gives the list the name of a board: what adds to it, and its beginning as a prefix.
    pub(crate) fn named<B: BoardName>(self) -> (SharedLength<B>, BoardPrefix<B>)
        requires { self.seen.book ≡ B.book }
        ensures { result.1 ≡ opening_entries }
    {
        let FreshList { head, seen } = self;
        (
            SharedLength {
                head,
                of: PhantomData,
            },
            BoardPrefix {
                book_prefix: BookPrefix {
                    count: OPENING,
                    seen,
                },
                of: PhantomData,
            },
        )
    }
}

/// The word that threads share, by which entries are added: the length of the list.
#[derive(Drop)]
pub struct SharedLength<B: BoardName> {
    head: Word<Entry, u64, GrowthRule>,
    of: PhantomData<B>,
    ghost head_is: { head ≡ head_of B.book },
}

/// A beginning of the list of some board.
#[derive(Drop)]
pub struct BookPrefix {
    count: u64,
    seen: Seen<Entry, u64, GrowthRule>,
}

impl Model for BookPrefix {
    ghost use Rattle.std.specs.Prelude.{◌≡◌, length};
    ghost use Rattle.rbac_admin.specs.PolicyLists.{IsPolicyList};
    ghost use Rattle.policy_board.specs.BookPrefixes.{PrefixInBook};

    ghost Value = { PrefixInBook };

    ghost view = { λ t. record { book = t.seen.book; list = t.seen.log } };

    ghost invariant = { λ t. (t.count ≡ length t.seen.log) × IsPolicyList t.seen.log };
}

impl BookPrefix {
    /// How many entries it has.
    pub fn len(&self) -> u64
        ensures length { result ≡ length self.now.list }
        ensures list { IsPolicyList self.now.list }
    {
        self.count
    }

    /// A copy.
    pub fn copied(&self) -> BookPrefix
        ensures { result ≡ self.now }
    {
        BookPrefix {
            count: self.count,
            seen: self.seen.again(),
        }
    }
}

/// A beginning of the board's list that was seen. It takes no memory. A contract sees the entries.
#[derive(Drop)]
pub struct BoardPrefix<B: BoardName> {
    book_prefix: BookPrefix,
    of: PhantomData<B>,
}

impl<B: BoardName> Model for BoardPrefix<B> {
    ghost use Rattle.std.specs.Prelude.{◌≡◌, List};
    ghost use Rattle.rbac_policy.specs.declared.commands.Entry.{Entry};

    ghost Value = { List Entry };

    ghost view = { λ f. f.book_prefix.list };

    ghost invariant = { λ f. f.book_prefix.book ≡ B.book };
}

impl<B: BoardName> BoardPrefix<B> {
    /// The prefix under the board's name.
    pub(crate) fn of(book_prefix: &BookPrefix) -> BoardPrefix<B>
        requires { book_prefix.now.book ≡ B.book }
        ensures { result ≡ book_prefix.now.list }
    {
        BoardPrefix {
            book_prefix: book_prefix.copied(),
            of: PhantomData,
        }
    }

    /// The same without the board's name in its type.
    pub(crate) fn book_prefix(&self) -> BookPrefix
        ensures { (result.list ≡ self.now) × (result.book ≡ B.book) }
    {
        self.book_prefix.copied()
    }

    /// How many entries it has: the version of the policy that stands for it.
    pub fn version(&self) -> u64
        ensures length { result ≡ length self.now }
        ensures list { IsPolicyList self.now }
    {
        self.book_prefix.len()
    }

    /// A copy.
    pub fn copied(&self) -> BoardPrefix<B>
        ensures { result ≡ self.now }
    {
        BoardPrefix {
            book_prefix: self.book_prefix.copied(),
            of: PhantomData,
        }
    }

    /// Whether this prefix begins the other. If it doesn't, the other begins this one, and is
    /// shorter.
    pub fn begins(&self, other: &BoardPrefix<B>) -> bool
        ensures { MatchBool result
            (Begins self.now other.now) (Begins other.now self.now
            × (length other.now < length self.now)) }
    {
        begins(&self.book_prefix, &other.book_prefix)
    }

    /// For the proof: a prefix that is no longer than another is a beginning of it.
    pub(crate) fn assert_begins(&self, other: &BoardPrefix<B>)
        requires { length self.now ≤ length other.now }
        ensures { Begins self.now other.now }
    {
        if !self.begins(other) {
            unreachable!()
        }
    }

    /// Whether the list has no more entries than were seen. Then the other prefix begins this one.
    /// It waits for nobody.
    pub(crate) fn is_all_published(&self, head: &SharedLength<B>, other: &BoardPrefix<B>) -> bool
        ensures { IsTrue result → Begins other.now self.now }
    {
        is_all_published(&self.book_prefix, &head.head, &other.book_prefix)
    }

    /// Adds an entry if the list is as long as was seen. Otherwise it answers no, and the prefix
    /// stays as it was.
    pub(crate) fn add(&mut self, head: &SharedLength<B>, entry: &Entry) -> bool
        requires room { length self.old < 2 ^ 62 }
        requires accepted { IsAccepted self.old entry.now }
        ensures { MatchBool result (self.new ≡ self.old ++ entry.now ∷ []) (self.new ≡ self.old) }
    {
        match add_to(&self.book_prefix, &head.head, entry) {
            Some(book_prefix) => {
                self.book_prefix = book_prefix;
                true
            }
            None => false,
        }
    }
}

/// Of two prefixes of one board one begins the other.
fn begins(one: &BookPrefix, other: &BookPrefix) -> bool
    requires { other.now.book ≡ one.now.book }
    ensures { MatchBool result
        (Begins one.now.list other.now.list)
        (Begins other.now.list one.now.list × (length other.now.list < length one.now.list)) }
{
    let mut both = one.seen.again();
    both.learn(&other.seen);
    if one.count > other.count {
        return false;
    }
    true
}

/// Looks how long the list is. Both prefixes begin it. Where it has as many entries as `one`, that
/// prefix is all of it.
fn is_all_published(
    one: &BookPrefix,
    head: &Word<Entry, u64, GrowthRule>,
    other: &BookPrefix,
) -> bool
    requires head { head.now ≡ head_of one.now.book }
    requires book { other.now.book ≡ one.now.book }
    ensures { IsTrue result → Begins other.now.list one.now.list }
{
    let mut both = one.seen.again();
    both.learn(&other.seen);
    let mut offer: Offer<Entry, u64, GrowthRule, NoGain> = both.plain::<NoGain, (), Looking>(&());
    let found = head.load::<Looking, NoGain>(&mut both, &mut offer);
    found == one.count
}

fn add_to(
    book_prefix: &BookPrefix,
    head: &Word<Entry, u64, GrowthRule>,
    entry: &Entry,
) -> Option<BookPrefix>
    requires head { head.now ≡ head_of book_prefix.now.book }
    requires room { length book_prefix.now.list < 2 ^ 62 }
    requires accepted { IsAccepted book_prefix.now.list entry.now }
    ensures { IfSome result
        (λ t. (t.book ≡ book_prefix.now.book) × (t.list ≡ book_prefix.now.list ++ entry.now
        ∷ [])) }
{
    let count = book_prefix.count;
    let mut seen = book_prefix.seen.again();
    let mut offer: Offer<Entry, u64, GrowthRule, NoGain> = seen.plain::<NoGain, Entry, Adding>(
        entry,
    );
    let mut pen = seen.no_pen();
    let found = head.compare_exchange::<Adding, NoGain>(
        count,
        count + 1,
        &mut seen,
        &mut offer,
        &mut pen,
    );
    if found != count {
        return None;
    }
    Some(BookPrefix {
        count: count + 1,
        seen,
    })
}
