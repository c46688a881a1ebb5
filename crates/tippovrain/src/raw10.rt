// RAW10.
ghost use Rattle.std.specs.Prelude.{◌≡◌, length};
ghost use Rattle.raw.specs.Unpack.{unpack_paper, unpack_buffer};

use crate::answers::tell;

#[unsafe(no_mangle)]
pub extern "C" fn tip_unpack_raw10(
    width: usize,
    height: usize,
    bytes: &[u8],
    out: &mut [u16],
    place: &mut u64,
) -> u64
    ensures number { result ≡ (unpack_paper width height (length bytes.now) (length out.old)).number }
    ensures place { place.new ≡ (unpack_paper width height (length bytes.now) (length out.old)).place }
    ensures buffer { out.new ≡ unpack_buffer width height bytes.now out.old }
{
    tell(raw::unpack_raw10(width, height, bytes, out), place)
}
