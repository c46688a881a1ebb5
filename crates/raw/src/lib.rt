// RAW10 unpacked: document 01, "RAW10".
#![tactic(auto)]

ghost use Rattle.std.specs.Prelude.{◌≡◌, ◌*◌, ◌<◌, length};
ghost use Rattle.laws.specs.Table.{tabulate};
ghost use Rattle.raw.specs.Packed.{joined, sample10};
ghost use Rattle.raw.specs.Unpack.{unpack_verdict, unpack_answer, paper_of, unpack_paper, unpack_buffer};

use verdict::Refusal;

// Refusals 1 and 4, of the lengths of the two buffers.
#[tactic(auto, unfolding(crate::specs::Unpack::unpack_verdict))]
fn judge(width: usize, height: usize, bytes: usize, out: usize) -> Result<(), Refusal>
    ensures { result ≡ unpack_verdict width height bytes out }
{
    verdict::refuse_if(Refusal::Sides, window::bad_sides(width, height))?;
    let n = window::sites(width, height);
    verdict::refuse_if(Refusal::Length, bytes != n * 5 / 4)?;
    refusals::length(width, height, out)
}

// A sample of its upper eight bits and the lower two that its group's last byte has for it.
fn join10(upper: u8, last: u8, j: u8) -> u16
    requires { j < 4 }
    ensures { result ≡ joined 2 upper last j }
{
    (u16::from(upper) << 2) | u16::from((last >> (2 * j)) & 3)
}

// Every sample, four to a group of five bytes.
fn fill(bytes: &[u8], out: &mut [u16])
    requires { 4 * length bytes.now ≡ 5 * length out.old }
    ensures { out.new ≡ tabulate (length out.old) (sample10 bytes.now) }
{
    // By an index: once `chunks_exact_mut` is over the kit's clauses tell a length and no element, so what is written there did not prove.
    for group in 0..out.len() / 4 {
        let i = 4 * group;
        let at = 5 * group;
        let last = bytes[at + 4];
        out[i] = join10(bytes[at], last, 0);
        out[i + 1] = join10(bytes[at + 1], last, 1);
        out[i + 2] = join10(bytes[at + 2], last, 2);
        out[i + 3] = join10(bytes[at + 3], last, 3);
    }
}

#[tactic(auto, unfolding(crate::specs::Unpack::unpack_answer, crate::specs::Unpack::unpack_paper, crate::specs::Unpack::unpack_buffer))]
pub fn unpack_raw10(
    width: usize,
    height: usize,
    bytes: &[u8],
    out: &mut [u16],
) -> Result<(), Refusal>
    ensures answer { result ≡ unpack_answer width height (length bytes.now) (length out.old) }
    ensures paper { paper_of result ≡ unpack_paper width height (length bytes.now) (length out.old) }
    ensures buffer { out.new ≡ unpack_buffer width height bytes.now out.old }
{
    judge(width, height, bytes.len(), out.len())?;
    fill(bytes, out);
    Ok(())
}
