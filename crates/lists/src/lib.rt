// Lists of figures and of counts.

#![tactic(auto)]

ghost use Rattle.std.specs.Prelude.{◌≡◌, replicate};
ghost use Rattle.lists.specs.Copying.{Copied};
ghost use Rattle.lists.specs.Pushing.{Pushed, PushedAll};

// As many entries as the longest horizon has windows.
const MAX_HORIZON: usize = 256;

// No figures yet, or no ticks: an array of 0 alone.
pub fn zeros() -> [u32; MAX_HORIZON]
    ensures { result ≡ replicate 256 0 }
{
    [0u32; MAX_HORIZON]
}

// Puts the figures of `from` over those of `to`, as many as there is room for, and tells whether they stood there already: one pass to
// compare and one to copy.
pub fn copy(from: &[u32], to: &mut [u32]) -> bool
    ensures { Copied from.now to.old to.new result }
{
    let n = from.len().min(to.len());
    let figures = &from[..n];
    let places = &mut to[..n];
    let same = *places == *figures;
    places.copy_from_slice(figures);
    same
}

// Puts a count behind the first `held` entries of a list, all of them if it has fewer. Where no place is left behind them, the others move
// down one place and the oldest is gone. Gives back how many entries are then held; those behind them stay as they are.
pub fn push(list: &mut [u32], held: usize, count: u32) -> usize
    ensures { Pushed list.old held count list.new result }
{
    let room = list.len();
    if held < room {
        list[held] = count;
        return held + 1;
    }
    if 0 < room {
        list.copy_within(1.., 0);
        list[room - 1] = count;
    }
    room
}

// The same for a list of counts, as if each were put in after the one before it: with more entries than there are places, the oldest go.
pub fn push_all(list: &mut [u32], held: usize, counts: &[u32]) -> usize
    ensures { PushedAll list.old held counts.now list.new result }
{
    let room = list.len();
    let n = counts.len();
    if room <= n {
        list.copy_from_slice(&counts[n - room..]);
        return room;
    }
    let there = held.min(room);
    let kept = there.min(room - n);
    list.copy_within(there - kept..there, 0);
    list[kept..kept + n].copy_from_slice(counts);
    kept + n
}
