// Numbers in so many places, and the drawing of heights into a buffer.
#![tactic(auto)]

ghost use Rattle.std.specs.Prelude.{◌≡◌, ◌+◌, ◌-◌, ◌*◌, ◌/◌, ◌<◌, ◌≤◌, ◌++◌, length, take, drop, replicate, decimal, IfOk, IfErr};
ghost use Rattle.terms.specs.Refusals.{Answers, told, told_of};
ghost use Rattle.terms.specs.declared.refusal.Rule.TheVariants.{BufferShort};
ghost use Rattle.draw.specs.Rows.{Draws, buffered, draw_refusal, row_text, text};
ghost use Rattle.draw.specs.Places.{justified};

use terms::{Refusal, Rule};

// A number in decimal, justified to the right in N places: of a longer one the last N digits.
pub fn justified<const N: usize>(n: u64) -> [u8; N]
    ensures value { result ≡ justified N n }
    ensures words { length (decimal n) ≤ N → result ≡ replicate (N - length (decimal n)) 32 ++ decimal n }
{
    let mut buffer = itoa::Buffer::new();
    let digits = buffer.format(n).as_bytes();
    let shown = digits.len().min(N);
    let mut places = [b' '; N];
    let right = &mut places[..];
    right[N - shown..].copy_from_slice(&digits[digits.len() - shown..]);
    places
}

// Writes a row, and a newline after it, into its own stretch of the buffer. Form: that stretch alone is lent, so no row can touch
// another.
fn write_row(heights: &[u8], out: &mut [u8])
    requires { length out.old ≡ 3 * length heights.now + 1 }
    ensures { out.new ≡ row_text heights.now }
{
    // By number, as rows are: of what is written through `chunks_mut` a proof knows nothing.
    for (i, h) in heights.iter().enumerate() {
        out[3 * i..3 * i + 3].copy_from_slice(&justified::<3>(u64::from(*h)));
    }
    out[3 * heights.len()] = b'\n';
}

// How long the drawing of so many heights is, where a buffer of a size holds it.
fn drawn_size(heights: usize, size: usize) -> Result<usize, Rule>
    ensures fits { IfOk result (λ n. (n ≡ 3 * heights + (heights + 15) / 16) × (n ≤ size)) }
    ensures short { IfErr result (λ rule. (rule ≡ BufferShort) × (size < 3 * heights + (heights + 15) / 16)) }
{
    heights
        .checked_mul(3)
        .and_then(|cells| cells.checked_add(heights.div_ceil(16)))
        .filter(|drawn| *drawn <= size)
        .ok_or(Rule::BufferShort)
}

// Draws heights, row by row, into the front of a buffer that holds the drawing.
fn write_rows(heights: &[u8], out: &mut [u8])
    requires { length (text heights.now) ≤ length out.old }
    ensures { out.new ≡ text heights.now ++ drop (length (text heights.now)) out.old }
{
    // Each row in its place, 49 bytes on: what a `zip` with `chunks_mut` writes is not known to a proof.
    for (i, row) in heights.chunks(16).enumerate() {
        let at = 49 * i;
        write_row(row, &mut out[at..at + 3 * row.len() + 1]);
    }
}

// Draws heights, sixteen to a row, into the front of a buffer, and says how many bytes that took.
#[tactic(auto, using(crate::proofs::Texts::length_text))]
pub fn draw(heights: &[u8], out: &mut [u8]) -> Result<usize, Refusal>
    ensures value { Answers (draw_refusal heights.now out.old) (λ n. n ≡ length (text heights.now)) result }
    ensures after { out.new ≡ buffered heights.now out.old result }
    ensures words { IfOk result (λ n. Draws heights.now (take n out.new) × (drop n out.new ≡ drop n out.old)) }
    ensures room { IfOk result (λ _. 3 * length heights.now + (length heights.now + 15) / 16 ≤ length out.old) }
    ensures short { IfErr result (λ f. (length out.old < 3 * length heights.now + (length heights.now + 15) / 16) × (told_of f ≡ told BufferShort 0 0)) }
    ensures unspoilt { IfErr result (λ _. out.new ≡ out.old) }
{
    let size = drawn_size(heights.len(), out.len())?;
    write_rows(heights, out);
    Ok(size)
}

#[cfg(test)]
mod tests {
    use super::*;

    #[test]
    fn rows_and_what_is_behind_them(rt: HostRuntime) {
        let heights = [0, 1, 12, 0, 0, 0, 0, 0, 0, 0, 0, 0, 0, 0, 0, 255, 7];
        let mut out = [b'.'; 56];
        assert_eq!(rt; draw(&heights, &mut out).ok(), Some(53));
        assert!(rt; &out == b"  0  1 12  0  0  0  0  0  0  0  0  0  0  0  0255\n  7\n...");
    }

    #[test]
    fn a_short_buffer_stays_as_it_is(rt: HostRuntime) {
        let mut out = [b'.'; 3];
        let drawn = draw(&[1], &mut out).map_err(|refusal| refusal.rule.number());
        assert_eq!(rt; drawn, Err(34));
        assert!(rt; &out == b"...");
    }

    #[test]
    fn a_number_stands_to_the_right(rt: HostRuntime) {
        assert_eq!(rt; justified::<6>(1234), *b"  1234");
        assert_eq!(rt; justified::<3>(1234), *b"234");
    }
}
