// The next stores of a job whose numbers are fair. The staged bytes are lent, and the job's numbers go beside them: a store copies no job.
ghost use Rattle.std.specs.Prelude.{◌≡◌, ◌+◌, ◌-◌, ◌<◌, ◌≤◌, length, get_or, eqb};
ghost use Rattle.stores.specs.Run.{◌at◌, stored, run};
ghost use Rattle.wire.specs.Flags.{when};
ghost use Rattle.form.specs.Envelope.{tag, stuffing_tag, stuffing};
ghost use Rattle.job.specs.declared.job.Job.{Job};
ghost use Rattle.job.specs.Job.{Fair, job_of, next_store, next_stores, advanced};

use form::envelope::{FILLER, STUFFING_TAG, TAG};
use std::marker::Model;
use stores::store::Store;

// A fair job: its staged bytes, its slot's size, its descriptor's, and how many stores are made.
#[derive(Drop)]
pub(crate) struct Next<'a> {
    staged: &'a [u8; 257],
    n: usize,
    d: usize,
    k: usize,
}

impl<'a> Model for Next<'a> {
    ghost Value = { Job };

    ghost view = { λ s. job_of s.staged.now s.n s.d s.k };

    ghost invariant = { λ s. Fair (job_of s.staged.now s.n s.d s.k) };
}

impl<'a> Next<'a> {
    // The job that has these parts.
    pub(crate) fn new(staged: &'a [u8; 257], n: usize, d: usize, k: usize) -> Self
        requires { Fair (job_of staged.now n d k) }
        ensures { result ≡ job_of staged.now n d k }
    {
        Next { staged, n, d, k }
    }

    // The byte at the place that is next, which the stuffing descriptor has. The bytes that are many come first.
    fn stuffing_byte(&self) -> u8
        requires { (self.now.descriptor_size ≤ self.now.stores_made) × (self.now.stores_made < self.now.slot_size) }
        ensures { result ≡ get_or (stuffing (self.now.slot_size - self.now.descriptor_size)) (self.now.stores_made - self.now.descriptor_size) 0 }
    {
        if self.d + 1 < self.k {
            return FILLER;
        }
        if self.k == self.d {
            return STUFFING_TAG;
        }
        (self.n - self.d - 2) as u8
    }

    // The first two stores, which make the whole slot one stuffing descriptor: its tag, and its length.
    fn first_store(&self) -> Store
        ensures { result ≡ when (eqb self.now.stores_made 0) (stuffing_tag at 0) ((self.now.slot_size - 2) at 1) }
    {
        if self.k == 0 {
            return store_at(STUFFING_TAG, 0);
        }
        store_at((self.n - 2) as u8, 1)
    }

    // The last two stores, which uncover the descriptor: its length, and its tag.
    fn last_store(&self) -> Store
        ensures { result ≡ when (eqb self.now.stores_made self.now.slot_size) ((self.now.descriptor_size - 2) at 1) (tag at 0) }
    {
        if self.k == self.n {
            return store_at((self.d - 2) as u8, 1);
        }
        store_at(TAG, 0)
    }

    // The job's next store. The stores that are many, the descriptor's own bytes and the stuffing, take the fewest tests.
    fn store(&self) -> Store
        requires { self.now.stores_made < self.now.slot_size + 2 }
        ensures { result ≡ next_store self.now }
    {
        if self.k < self.d {
            if self.k < 2 {
                return self.first_store();
            }
            return store_at(self.staged[self.k], self.k);
        }
        if self.n <= self.k {
            return self.last_store();
        }
        store_at(self.stuffing_byte(), self.k)
    }

    // Makes the job's next store and no other.
    fn make_store(&mut self, slot: &mut [u8])
        requires { (self.old.stores_made < self.old.slot_size + 2) × (length slot.old ≡ self.old.slot_size) }
        ensures fair { Fair self.old }
        ensures job { self.new ≡ advanced self.old 1 }
        ensures slot { slot.new ≡ stored (next_store self.old) slot.old }
    {
        make(self.store(), slot);
        self.k += 1;
    }

    // Makes the job's next `count` stores, one call of `make_store` each.
    pub(crate) fn make_stores(&mut self, slot: &mut [u8], count: usize)
        requires { (self.old.stores_made + count ≤ self.old.slot_size + 2) × (length slot.old ≡ self.old.slot_size) }
        ensures job { self.new ≡ advanced self.old count }
        ensures slot { slot.new ≡ run (next_stores self.old count) slot.old }
    {
        for _ in 0..count {
            self.make_store(slot);
        }
    }
}

// A byte and its place.
fn store_at(byte: u8, place: usize) -> Store
    ensures { result ≡ byte at place }
{
    Store { place, byte }
}

// Makes one store and no other.
fn make(s: Store, slot: &mut [u8])
    requires { s.place < length slot.old }
    ensures { slot.new ≡ stored s slot.old }
{
    let place = s.place;
    slot[place] = s.byte;
}
