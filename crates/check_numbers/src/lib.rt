// Whether all numbers on a floor differ: each number is compared with the earlier ones of its remainder.
#![tactic(auto)]

ghost use Rattle.std.specs.Prelude.{◌≡◌, IfSome};
ghost use Rattle.check_unique.specs.InternalDiffer.{differ, Runs};

use check_unique::all_differ;

// The greatest prime below 2048, the size of the table of remainders.
const REMAINDERS: u32 = 2039;

// How many comparisons the chains may take. A thousand numbers drawn at random take half of that.
const STEPS: u32 = 512;

// Whether all differ; none where the steps ran out. heads[h] is 1 + the last place so far whose number has the remainder h,
// prev[i] is 1 + the last one before place i with i's remainder; 0 where there is none: two bytes, an Option takes four.
fn chained(keys: &[u32; 1024]) -> Option<bool>
    requires { Runs keys.now }
    ensures { IfSome result (λ told. differ keys.now ≡ told) }
{
    let mut heads = [0u16; 2048];
    let mut prev = [0u16; 1024];
    let mut left = STEPS;
    let mut i = 0;
    // neither loop is a `for`: behind the last number of its sixteen a place jumps to the next sixteen, and a chain is followed
    while i < 1024 {
        let n = keys[i];
        if n == 0 {
            i = i / 16 * 16 + 16;
        } else {
            let h = (n % REMAINDERS) as usize;
            let first = heads[h];
            let mut p = usize::from(first);
            while 0 < p {
                let q = p - 1;
                if keys[q] == n {
                    return Some(false);
                }
                if left == 0 {
                    return None;
                }
                left -= 1;
                p = usize::from(prev[q]);
            }
            prev[i] = first;
            heads[h] = (i + 1) as u16;
            i += 1;
        }
    }
    Some(true)
}

// By chains; where they are too long, by names.
pub fn numbers_differ(keys: &[u32; 1024]) -> bool
    requires { Runs keys.now }
    ensures { result ≡ differ keys.now }
{
    match chained(keys) {
        Some(told) => told,
        None => all_differ(*keys),
    }
}
