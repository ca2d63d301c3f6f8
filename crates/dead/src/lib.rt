// The dead nonce list: a ring of fingerprints with the time when each joined.
#![tactic(auto)]

ghost use Rattle.std.specs.Prelude.{◌≡◌, [], length};
ghost use Rattle.sizes.specs.Sizes.{most_dead};
ghost use Rattle.records.specs.Line.{joined, counts, is_dead};
ghost use Rattle.dead.specs.Places.View.{line, line_of, line_count, view};
ghost use Rattle.dead.specs.Places.Stays.{LinesStay};
ghost use Rattle.dead.specs.declared.Dead.{Dead};

use sizes::DEAD;

// "A line counts while now minus its time is under 6,000."
const DEAD_TIME: u64 = 6000;

// A line: a fingerprint, and the time when it joined.
#[derive(Clone, Copy)]
pub struct Row {
    pub print: u64,
    pub time: u64,
}

// The lines, where the oldest one stands, and how many there are: a count of 0 empties it. Nobody above reads its fields but to
// lend them.
#[derive(Clone, Copy)]
pub struct Dead {
    pub lines: [Row; DEAD],
    pub at: usize,
    pub count: usize,
}

impl Row {
    // Whether the line counts for a fingerprint. A line later than the time has age 0.
    fn is_live(self, time: u64, print: u64) -> bool
        ensures { result ≡ counts time print (line_of self) }
    {
        self.print == print && (time < self.time || time - self.time < DEAD_TIME)
    }
}

// How many lines a list without any counts, whatever its lines hold and wherever the oldest stands.
pub fn none() -> usize
    ensures no_lines { (d : Dead) → d.count ≡ result → view d ≡ [] }
    ensures none_counted { (d : Dead) → d.count ≡ result → line_count d ≡ 0 }
{
    // No line is counted.
    0
}

impl Dead {
    // A list with no lines.
    pub fn new() -> Dead
        ensures no_lines { view result ≡ [] }
        ensures none_counted { line_count result ≡ 0 }
    {
        Dead {
            lines: [Row { print: 0, time: 0 }; DEAD],
            at: 0,
            count: 0,
        }
    }

    // No lines, whatever the memory holds.
    pub fn clear(&mut self)
        ensures no_lines { view self.new ≡ [] }
        ensures none_counted { line_count self.new ≡ 0 }
        ensures lines { LinesStay self.old self.new }
    {
        self.at = 0;
        self.count = 0;
    }

    // A line joins: "the 257th overwrites the oldest".
    pub fn join(&mut self, print: u64, time: u64)
        ensures joins { view self.new ≡ joined most_dead (view self.old) (line print time) }
        ensures counted { line_count self.new ≡ length (view self.new) }
    {
        let at = self.at % DEAD;
        if self.count < DEAD {
            self.lines[(at + self.count) % DEAD] = Row { print, time };
            self.at = at;
            self.count += 1;
        } else {
            self.lines[at] = Row { print, time };
            self.at = (at + 1) % DEAD;
            self.count = DEAD;
        }
    }

    // Whether a fingerprint is live: "A line counts while now minus its time is under 6,000."
    pub fn is_dead(&self, time: u64, print: u64) -> bool
        ensures { result ≡ is_dead time print (view self.now) }
    {
        let at = self.at % DEAD;
        (0..self.count.min(DEAD)).any(|k| self.lines[(at + k) % DEAD].is_live(time, print))
    }
}
