// A list over a caller's slice, which takes entries in order until the slice is full.
ghost use Rattle.std.specs.Prelude.{◌≡◌, ◌≤◌, [], ◌∷◌, length};

use crate::refusals::Refusal;

// The first `count` slots are the list; the rest still hold what the caller left there. It is a slice with a
// count beside it because the library takes no memory of its own.
// In the contracts, `lender` says that the slice beneath is still the one that the caller lent.
#[derive(Drop)]
pub struct Bounded<'a, T> {
    slots: &'a mut [T],
    count: usize,
    ghost within: { count ≤ length slots.now },
}

impl<'a, T> Bounded<'a, T> {
    ghost use Rattle.reading.specs.Bounds.{IsOver, StaysOver, beneath, count_of, entries_of};
    ghost use Rattle.reading.specs.Lists.{count_after, grown, put_from};

    // An empty list over the whole slice.
    pub fn new(slots: &'a mut [T]) -> Bounded<'a, T>
        ensures lender { IsOver result slots.entry }
        ensures slots { beneath result ≡ slots.old }
        ensures count { count_of result ≡ 0 }
    {
        Bounded { slots, count: 0 }
    }

    // How many entries there are.
    pub fn count(&self) -> usize
        ensures { result ≡ count_of self.now }
    {
        self.count
    }

    pub fn entries(&self) -> &[T]
        ensures { result.now ≡ entries_of self.now }
    {
        &self.slots[..self.count]
    }

    // The whole slice: the entries, and behind them what the caller left there.
    pub fn into_slots(self) -> &'a mut [T]
        ensures lender { IsOver self.entry result }
        ensures slots { result.now ≡ beneath self.entry }
    {
        let Bounded { slots, count: _ } = self;
        slots
    }

    // One entry more; answers the count then. Where it does not fit it is refused, and nothing changes.
    #[tactic(auto, using(std::proofs::lemmas::List::set_split))]
    pub fn push(&mut self, entry: T) -> Result<usize, Refusal>
    where
        T: Drop,
        ensures value { result ≡ grown (count_of self.old) 1 (length (beneath self.old)) }
        ensures slots { beneath self.new ≡ put_from (count_of self.old) (entry ∷ []) (beneath self.old) }
        ensures count { count_of self.new ≡ count_after result (count_of self.old) }
        ensures lender { StaysOver self.old self.new }
    {
        let at = self.count;
        if at >= self.slots.len() {
            return Err(Refusal::TooLittleRoom {
                needed: at.saturating_add(1),
            });
        }
        self.slots[at] = entry;
        self.count = at + 1;
        Ok(at + 1)
    }

    // All of these entries, or none of them; answers the count then. A function for the test of the room, here and
    // in `push`, would be no plainer.
    pub fn extend(&mut self, entries: &[T]) -> Result<usize, Refusal>
    where
        T: Copy,
        ensures value { result ≡ grown (count_of self.old) (length entries.now) (length (beneath self.old)) }
        ensures slots { beneath self.new ≡ put_from (count_of self.old) entries.now (beneath self.old) }
        ensures count { count_of self.new ≡ count_after result (count_of self.old) }
        ensures lender { StaysOver self.old self.new }
    {
        let at = self.count;
        if entries.len() > self.slots.len() - at {
            return Err(Refusal::TooLittleRoom {
                needed: at.saturating_add(entries.len()),
            });
        }
        let to = at + entries.len();
        self.slots[at..to].copy_from_slice(entries);
        self.count = to;
        Ok(to)
    }
}
