// Lists of numbers, parted by commas.
ghost use Rattle.std.specs.Prelude.{◌≡◌, ℕ, ◌<◌, min, List, map};
ghost use Rattle.std.specs.Iterator.{IsFinite};
ghost use Rattle.std.specs.Iterator.Runs.{WholeRun};
ghost use Rattle.number.specs.Writer.{wrote};
ghost use Rattle.number.specs.Texts.{whole_text, setting_text, position_text, list_text};

use crate::writer::Writer;

/// What a list is made of: anything that has a text.
pub trait Item {
    ghost text: { Self → List ℕ };

    /// Writes the text.
    fn put(&self, out: &mut Writer)
        ensures { out.new ≡ wrote out.old (text self.now) };
}

/// A whole number.
#[derive(Clone, Copy)]
pub struct Whole(pub u64);

/// A setting, in millionths.
#[derive(Clone, Copy)]
pub struct Setting(pub i64);

/// A position, in millionths, with the number of decimal places to show.
#[derive(Clone, Copy)]
pub struct Position {
    pub millionths: i64,
    pub digits: usize,
}

impl Item for Whole {
    ghost text = { λ n. whole_text n.0 };

    fn put(&self, out: &mut Writer) {
        out.whole(self.0);
    }
}

impl Item for Setting {
    ghost text = { λ s. setting_text s.0 };

    fn put(&self, out: &mut Writer) {
        out.setting(self.0);
    }
}

impl Item for Position {
    ghost text = { λ p. position_text (min p.digits 6) p.millionths };

    fn put(&self, out: &mut Writer) {
        out.position(self.digits, self.millionths);
    }
}

impl<T: Item> Item for &T {
    ghost text = { λ r. T.text r.now };

    fn put(&self, out: &mut Writer) {
        (**self).put(out);
    }
}

impl Writer<'_> {
    /// Writes the items that come, parted by commas.
    #[tactic(auto, using(crate::proofs::Listed::list_none))]
    pub fn list<T: Item + Drop, I: Iterator<Item = T> + Drop>(&mut self, items: I)
        requires can { I.can_next items }
        requires ends { IsFinite (I.remaining items) }
        ensures runs { WholeRun I.next_gives items (λ p. self.new ≡ wrote self.old (list_text (map T.text p.items))) }
    {
        let mut behind = false;
        for item in items {
            self.when(behind, b',');
            item.put(self);
            behind = true;
        }
    }

    /// Writes the items of a slice, parted by commas.
    #[tactic(auto, using(crate::proofs::Listed::list_none))]
    pub fn items<T: Item>(&mut self, items: &[T])
        ensures { self.new ≡ wrote self.old (list_text (map T.text items.now)) }
    {
        let mut behind = false;
        for one in items {
            self.when(behind, b',');
            one.put(self);
            behind = true;
        }
    }

    // A loop of its own: over `self.list(numbers.iter().map(..))` the check did not find the clause, which no function but a relation gives.
    /// Writes what is made of each number, parted by commas.
    #[tactic(auto, using(crate::proofs::Listed::list_none))]
    pub fn list_of<T: Item + Drop, F: Fn(u8) -> T>(&mut self, numbers: &[u8], item: F)
        requires { F.IsAlwaysCallable item }
        ensures { (text : ℕ → List ℕ) → ((n : ℕ) (x : T) → n < 256 → F.post item n x → T.text x ≡ text n) → self.new ≡ wrote self.old (list_text (map text numbers.now)) }
    {
        let mut behind = false;
        for number in numbers {
            self.when(behind, b',');
            item(*number).put(self);
            behind = true;
        }
    }
}
