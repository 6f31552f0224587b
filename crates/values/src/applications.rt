// A table of applications by key: a key leads to the last place that was put in with it, and each place to the one before it with its key.
ghost use Rattle.std.specs.Prelude.{◌≡◌, ℕ, ◌<◌, Some, None, true, false, MatchOption};
ghost use Rattle.table.specs.Limits.{max_nodes};
ghost use Rattle.values.specs.Code.Applications.{keys, IsEmpty, with_place, OnWay, Falls};

use table::limits::MAX_NODES;

// How many keys the table has.
pub const KEYS: usize = 256;

// The places by key.
#[derive(Drop)]
pub struct Applications {
    latest: [Option<u8>; KEYS],
    earlier: [Option<u8>; MAX_NODES],
}

impl Applications {
    // A table of no places.
    pub fn new() -> Applications
        ensures { IsEmpty result }
    {
        Applications {
            latest: [None; KEYS],
            earlier: [None; MAX_NODES],
        }
    }

    // Puts a place in front of those with its key.
    pub fn put(&mut self, place: usize, key: usize)
        requires { (place < max_nodes) × (key < keys) }
        ensures { self.new ≡ with_place self.old place key }
    {
        self.earlier[place] = self.latest[key].replace(place as u8);
    }

    // A place with a key that passes a test: the places are tried from the last that was put in.
    pub fn find<F: Fn(usize) -> bool>(&self, key: usize, passes: F) -> Option<usize>
        requires key_bound { key < keys }
        requires falls { Falls self.now key }
        requires callable { (q : ℕ) → OnWay self.now key q → F.pre passes q }
        ensures { MatchOption result ((q : ℕ) → OnWay self.now key q → F.post passes q false) (λ q. OnWay self.now key q × F.post passes q true) }
    {
        let mut cursor = self.latest[key];
        while let Some(place) = cursor {
            let q = usize::from(place);
            if passes(q) {
                return Some(q);
            }
            cursor = self.earlier[q];
        }
        None
    }
}
