// Beginning a job, and stepping it.
ghost use Rattle.std.specs.Prelude.{◌≡◌, length};
ghost use Rattle.answers.specs.Plain.{answer_out};
ghost use Rattle.job.specs.Step.{step_of, slot_after};
ghost use Rattle.begin.specs.Begin.{begin_plain, sizes_of};
ghost use Rattle.job.specs.Job.{job_of};
ghost use Rattle.capi.specs.Job.{stepped_out, moved_out, SteppedInPlace};

use answers::plain::PlainAnswer;
use job::job::Job;

// What a step tells: how many stores it made, the number of its answer, 0 or 8, and whether the job has none left, as a flag. Numbers, since it crosses to C.
#[repr(C)]
#[derive(Clone, Copy)]
pub struct PlainAdvanced {
    pub stores: usize,
    pub number: u8,
    pub done: u8,
}

// The job after the step, and what the step tells.
#[repr(C)]
#[derive(Clone, Copy)]
pub struct PlainStepped {
    pub job: Job,
    pub told: PlainAdvanced,
}

// `begin::begin` of the library, into a job that is lent: its staged bytes, and its three numbers, two references, so that C's job is filled where it stands. Stores nothing in the slot.
#[unsafe(no_mangle)]
pub extern "C" fn s2xv2_raw_begin(
    s: &[u8],
    w: &[u32; 10],
    b: &[u8; 36],
    reserved_tail: &[u8],
    staged: &mut [u8; 257],
    sizes: &mut [usize; 3],
) -> PlainAnswer
    ensures answer { result ≡ answer_out (begin_plain s.now w.now b.now reserved_tail.now).told }
    ensures bytes { staged.new ≡ (begin_plain s.now w.now b.now reserved_tail.now).job.staged }
    ensures numbers { sizes.new ≡ sizes_of (begin_plain s.now w.now b.now reserved_tail.now).job }
{
    begin::begin_plain(s, w, b, reserved_tail, staged, sizes)
}

// What a step learns: what it tells, and how many stores the job has made in all.
#[derive(Clone, Copy)]
struct PlainMoved {
    made: usize,
    told: PlainAdvanced,
}

// `job::advance::advance` of the library, which lends the staged bytes and takes the job's numbers beside them. A step that is refused has number 8.
fn advanced(
    staged: &[u8; 257],
    n: usize,
    d: usize,
    k: usize,
    s: &mut [u8],
    allowance: usize,
) -> PlainMoved
    ensures told { result ≡ moved_out (step_of (job_of staged.now n d k) (length s.old) allowance) }
    ensures left { s.new ≡ slot_after (job_of staged.now n d k) s.old allowance }
{
    match job::advance::advance(staged, n, d, k, s, allowance) {
        Ok(moved) => PlainMoved {
            made: moved.made,
            told: PlainAdvanced {
                stores: moved.advanced.stores,
                number: 0,
                done: u8::from(moved.advanced.done),
            },
        },
        Err(_) => PlainMoved {
            made: k,
            told: PlainAdvanced {
                stores: 0,
                number: 8,
                done: 0,
            },
        },
    }
}

// `Job::step` of the library: the staged bytes are lent on, and the job is given back whole: what C keeps between its fields comes back too.
#[unsafe(no_mangle)]
pub extern "C" fn s2xv2_step(mut j: Job, s: &mut [u8], allowance: usize) -> PlainStepped
    ensures told { result ≡ stepped_out (step_of j (length s.old) allowance) }
    ensures left { s.new ≡ slot_after j s.old allowance }
{
    let n = j.slot_size;
    let d = j.descriptor_size;
    let k = j.stores_made;
    let m = advanced(&j.staged, n, d, k, s, allowance);
    j.stores_made = m.made;
    PlainStepped {
        job: j,
        told: m.told,
    }
}

// `Job::step` of the library for a job where it stands: its bytes are lent on, and the one number that a step changes is stored. A refused step stores
// nothing and leaves the job as it was.
#[unsafe(no_mangle)]
pub extern "C" fn s2xv2_step_in_place(
    job: &mut Job,
    s: &mut [u8],
    allowance: usize,
) -> PlainAdvanced
    ensures { SteppedInPlace job.old s.old allowance result job.new s.new }
{
    let n = job.slot_size;
    let d = job.descriptor_size;
    let k = job.stores_made;
    let m = advanced(&job.staged, n, d, k, s, allowance);
    job.stores_made = m.made;
    m.told
}
