// Begins a job.
#![tactic(auto)]

ghost use Rattle.std.specs.Prelude.{◌≡◌, [], ◌∷◌, ◌+◌, ◌≤◌, replicate, IfSome};
ghost use Rattle.answers.specs.Answer.{numbers};
ghost use Rattle.job.specs.Job.{job_of, fits_in};
ghost use Rattle.s2xv2_plain.specs.Input.{meant};
ghost use Rattle.answers.specs.Plain.{answer_out};
ghost use Rattle.begin.specs.Begin.{Sized, no_job, record_told, fit_told, stage_told, begun_seen, answered, begin_of, begin_plain, sized_plain, sizes_of, staged_size, Staged};

use answers::answer::Refusal;
use answers::plain::{PlainAnswer, accepted, answer_out, refusal_out};
use form::envelope::{EXTENSION, TAG};
use form::good::{Form, form_of};
use job::job::Job;
use s2xv2::record::S2Xv2SatelliteDeliverySystem;
use s2xv2_plain::input::of_plain;
use s2xv2_writer::write_ready;

// A job that is begun, and how many stores it makes.
#[derive(Clone, Copy)]
pub struct Begun {
    pub stores: usize,
    pub job: Job,
}

// What stands where there is no job.
pub fn no_job() -> Job
    ensures { result ≡ no_job }
{
    Job {
        staged: [0u8; 257],
        slot_size: 0,
        descriptor_size: 0,
        stores_made: 0,
    }
}

// The job that stores the staged descriptor of `d` bytes in a slot of `n`.
fn job_of(staged: [u8; 257], n: usize, d: usize) -> Begun
    requires { n ≤ 257 }
    ensures { result ≡ record { stores = n + 2; job = job_of staged n d 0 } }
{
    let job = Job {
        staged,
        slot_size: n,
        descriptor_size: d,
        stores_made: 0,
    };
    Begun { stores: n + 2, job }
}

// Stages a descriptor of `d` bytes, which fits the slot of `n`: its envelope, and the body as the writer writes it.
fn stage(
    n: usize,
    d: usize,
    r: S2Xv2SatelliteDeliverySystem,
    reserved_tail: &[u8],
) -> Result<Begun, Refusal>
    requires { Sized n d r reserved_tail.now × (d ≤ n) }
    ensures { begun_seen result ≡ answered (stage_told n r) n r reserved_tail.now }
{
    let mut staged = [0u8; 257];
    staged[0] = TAG;
    staged[1] = (d - 2) as u8;
    staged[2] = EXTENSION;
    s2xv2_writer::serialize_into(r, reserved_tail, &mut staged[3..])?;
    Ok(job_of(staged, n, d))
}

// Whether a descriptor of `d` bytes fits a slot of `n`: it is not larger, and not exactly one byte smaller.
#[tactic(auto, unfolding(job::specs::Job::fits_in))]
fn is_fit(d: usize, n: usize) -> bool
    requires { n ≤ 257 }
    ensures { result ≡ fits_in d n }
{
    d <= n && d + 1 != n
}

// Refuses a descriptor of `d` bytes that does not fit the slot of `n`.
fn fit(
    n: usize,
    d: usize,
    r: S2Xv2SatelliteDeliverySystem,
    reserved_tail: &[u8],
) -> Result<Begun, Refusal>
    requires { Sized n d r reserved_tail.now }
    ensures { begun_seen result ≡ answered (fit_told n r reserved_tail.now) n r reserved_tail.now }
{
    if !is_fit(d, n) {
        return Err(Refusal::NoFit { size: d });
    }
    stage(n, d, r, reserved_tail)
}

// Begins in a slot of `n` bytes that is in good form: judges the record and its length, then the fit.
fn begin_sized(
    n: usize,
    r: S2Xv2SatelliteDeliverySystem,
    reserved_tail: &[u8],
) -> Result<Begun, Refusal>
    requires { (21 ≤ n) × (n ≤ 257) }
    ensures { begun_seen result ≡ answered (record_told n r reserved_tail.now) n r reserved_tail.now }
{
    let length = s2xv2_measure::serialized_len(r, reserved_tail)?;
    fit(n, length + 3, r, reserved_tail)
}

// The job that an answer of `begin` gives: where it is refused the job of zeros, which every step refuses.
pub fn job_in(begun: Result<Begun, Refusal>) -> Job
    ensures { result ≡ (begun_seen begun).job }
{
    match begun {
        Ok(begun) => begun.job,
        Err(_) => no_job(),
    }
}

// A job that is to store the record and its tail in the slot. Stores nothing. Refuses a slot of a wrong size, one that is not in good form, a record that
// contradicts itself, an encoding of more than 4,096 bytes, a descriptor that does not fit, and a value that the wire cannot carry, in this order.
pub fn begin(
    slot: &[u8],
    r: S2Xv2SatelliteDeliverySystem,
    reserved_tail: &[u8],
) -> Result<Begun, Refusal>
    ensures { begun_seen result ≡ begin_of slot.now r reserved_tail.now }
{
    match form_of(slot) {
        Form::Size => Err(Refusal::Slot),
        Form::Broken { at } => Err(Refusal::SlotForm { offset: at }),
        Form::Empty | Form::Ours { at: _ } => begin_sized(slot.len(), r, reserved_tail),
    }
}

// Stages the descriptor of the record that plain numbers mean in zeros, and answers its size, unless the writer refuses the record.
fn stage_plain(
    w: &[u32; 10],
    b: &[u8; 36],
    reserved_tail: &[u8],
    staged: &mut [u8],
) -> Option<usize>
    requires { staged.old ≡ replicate staged_size 0 }
    ensures { IfSome result (λ d. Staged d (meant w.now b.now) reserved_tail.now staged.new) }
{
    let length = write_ready(w, b, reserved_tail, &mut staged[3..])?;
    staged[0] = TAG;
    staged[1] = (length + 1) as u8;
    staged[2] = EXTENSION;
    Some(length + 3)
}

// A refused begin, into a job that is lent, as two references, since they cross so: there is none.
fn refused_plain(why: Refusal, staged: &mut [u8; 257], sizes: &mut [usize; 3]) -> PlainAnswer
    ensures answer { result ≡ answer_out (numbers why) }
    ensures bytes { staged.new ≡ no_job.staged }
    ensures numbers { sizes.new ≡ sizes_of no_job }
{
    *staged = [0u8; 257];
    *sizes = [0, 0, 0];
    refusal_out(why)
}

// A begin that is accepted, into a job that is lent.
fn begun_plain(begun: Begun, staged: &mut [u8; 257], sizes: &mut [usize; 3]) -> PlainAnswer
    ensures answer { result ≡ answer_out (0 ∷ begun.stores ∷ []) }
    ensures bytes { staged.new ≡ begun.job.staged }
    ensures numbers { sizes.new ≡ sizes_of begun.job }
{
    let job = begun.job;
    let bytes = job.staged;
    *staged = bytes;
    *sizes = [job.slot_size, job.descriptor_size, job.stores_made];
    answer_out(Ok(begun.stores))
}

// `begin_sized` of the record that plain numbers mean, into a job that is lent. One that passes the writer's quick tests and fits is judged and written once;
// any other goes the long way.
fn sized_plain(
    n: usize,
    w: &[u32; 10],
    b: &[u8; 36],
    reserved_tail: &[u8],
    staged: &mut [u8; 257],
    sizes: &mut [usize; 3],
) -> PlainAnswer
    requires { (21 ≤ n) × (n ≤ 257) }
    ensures answer { result ≡ answer_out (sized_plain n w.now b.now reserved_tail.now).told }
    ensures bytes { staged.new ≡ (sized_plain n w.now b.now reserved_tail.now).job.staged }
    ensures numbers { sizes.new ≡ sizes_of (sized_plain n w.now b.now reserved_tail.now).job }
{
    *staged = [0u8; 257];
    if let Some(d) = stage_plain(w, b, reserved_tail, staged) {
        if is_fit(d, n) {
            *sizes = [n, d, 0];
            return accepted((n + 2) as u16);
        }
    }
    match begin_sized(n, of_plain(w, b), reserved_tail) {
        Ok(begun) => begun_plain(begun, staged, sizes),
        Err(why) => refused_plain(why, staged, sizes),
    }
}

// `begin` of the record that plain numbers mean, into a job that is lent: its staged bytes, and its slot size, its descriptor size and the stores made.
pub fn begin_plain(
    slot: &[u8],
    w: &[u32; 10],
    b: &[u8; 36],
    reserved_tail: &[u8],
    staged: &mut [u8; 257],
    sizes: &mut [usize; 3],
) -> PlainAnswer
    ensures answer { result ≡ answer_out (begin_plain slot.now w.now b.now reserved_tail.now).told }
    ensures bytes { staged.new ≡ (begin_plain slot.now w.now b.now reserved_tail.now).job.staged }
    ensures numbers { sizes.new
        ≡ sizes_of (begin_plain slot.now w.now b.now reserved_tail.now).job }
{
    match form_of(slot) {
        Form::Size => refused_plain(Refusal::Slot, staged, sizes),
        Form::Broken { at } => refused_plain(Refusal::SlotForm { offset: at }, staged, sizes),
        Form::Empty | Form::Ours { at: _ } => sized_plain(
            slot.len(),
            w,
            b,
            reserved_tail,
            staged,
            sizes,
        ),
    }
}
