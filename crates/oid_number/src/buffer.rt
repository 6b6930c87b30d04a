// Numbers of the buffer, copied.
ghost use Rattle.std.specs.Prelude.{◌≡◌, ◌+◌, ◌≤◌, length, take, drop};
ghost use Rattle.oid_number.specs.Buffer.{laid_at};

use index::NumberIndex;

// Copies numbers of the buffer, so many of them, to behind them.
pub fn copy_numbers(numbers: &mut [u32], from: NumberIndex, to: NumberIndex, count: usize)
    requires apart { from.0 + count ≤ to.0 }
    requires room { to.0 + count ≤ length numbers.old }
    ensures { numbers.new ≡ laid_at to.0 (take count (drop from.0 numbers.old)) numbers.old }
{
    let a = from.0;
    let b = to.0;
    let mut j = 0;
    while j < count {
        numbers[b + j] = numbers[a + j];
        j += 1;
    }
}
