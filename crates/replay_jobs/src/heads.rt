// The heads of descriptors, laid over the bytes of a slot. What would stand behind its end is left out.
ghost use Rattle.std.specs.Prelude.{◌<◌};

use lines::put::put;

// A byte of a list, 0 behind its end.
pub(crate) fn byte_of(list: &[u8], i: usize) -> u8 {
    list.get(i).copied().unwrap_or(0)
}

// The size of a descriptor.
pub(crate) fn size_of(length: u8) -> usize
    ensures { (0 < result) × (result < 258) }
{
    usize::from(length) + 2
}

// A descriptor's tag and length; of one of ours also its third byte, if its length is not 0.
pub(crate) fn lay(slot: &mut [u8], at: usize, tag: u8, length: u8) {
    let second = put(slot, at, tag);
    let third = put(slot, second, length);
    if tag == 0x7F && length != 0 {
        put(slot, third, 0x24);
    }
}

// A descriptor of `size` bytes.
pub(crate) fn lay_sized(slot: &mut [u8], at: usize, tag: u8, size: usize) {
    if 2 <= size {
        lay(slot, at, tag, ((size - 2) % 256) as u8);
    }
}
