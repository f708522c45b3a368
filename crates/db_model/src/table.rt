ghost use Rattle.std.specs.Prelude.{◌≡◌, ℕ, ◌+◌, ◌<◌, ◌≤◌, OnOk, OnErr, Some, true};
ghost use Rattle.db_model.specs.Fitting.{look_fits, add_fits};
ghost use Rattle.db_model.specs.Table.{Parts, look, add};
ghost use Rattle.db_model.specs.declared.database.TableDecl.{TableDecl};

use crate::{Answer, Keys, NewEntry, NoMemory, STAMP_END, Stamp};

/// A table of a session. It is seen as its two lists of entries and the number of calls of `look` and `add`
/// for which it has room.
pub trait Table {
    ghost declaration: { Self → TableDecl };

    ghost content: { Self → Parts };

    ghost spare: { Self → ℕ };

    /// Makes room for `n` calls. A refusal changes nothing.
    fn reserve(&mut self, n: u32) -> Result<(), NoMemory>
        ensures declaration { declaration self.new ≡ declaration self.old }
        ensures content { content self.new ≡ content self.old }
        ensures room { OnOk result ((n ≤ spare self.new) × (spare self.old ≤ spare self.new)) }
        ensures refused { OnErr result (spare self.new ≡ spare self.old) };

    /// Looks for the keys at the moment `t`, and renews what it hits where `renew` says so. The keys have the
    /// declared number and sizes. Takes no memory.
    fn look(&mut self, keys: &Keys, renew: bool, t: Stamp) -> Answer
        requires room { 0 < spare self.old }
        requires keys { look_fits (declaration self.old) keys.now ≡ true }
        requires time { t < STAMP_END }
        ensures declaration { declaration self.new ≡ declaration self.old }
        ensures answer { result ≡ (look (declaration self.old) (content self.old) keys.now renew t).0 }
        ensures content { content self.new ≡ (look (declaration self.old) (content self.old) keys.now renew t).1 }
        ensures spare { spare self.old ≤ spare self.new + 1 };

    /// Adds an entry at the moment `t`. Its keys and masks have the declared number and sizes, its row the
    /// declared types and at most the declared sizes. Takes no memory.
    fn add(&mut self, entry: &NewEntry, t: Stamp)
        requires room { 0 < spare self.old }
        requires entry { add_fits (declaration self.old) entry.now ≡ true }
        requires time { t < STAMP_END }
        ensures declaration { declaration self.new ≡ declaration self.old }
        ensures content { content self.new ≡ add (declaration self.old) (content self.old) entry.now t }
        ensures spare { spare self.old ≤ spare self.new + 1 };
}
