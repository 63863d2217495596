// One word made from two, so that every bit of either matters.
ghost use Rattle.std.specs.Prelude.{◌≡◌, ℕ, ◌<◌, length, slice_index};
ghost use Rattle.memdisk.specs.Mixing.{stirred, mix_of};

const GOLDEN: u64 = 0x9e3779b97f4a7c15;

#[tactic(auto, unfolding(crate::specs::Mixing::stirred))]
fn stir(z: u64, k: u32, factor: u64) -> u64
    requires { k < 64 }
    ensures { result ≡ stirred z k factor }
{
    (z ^ (z >> k)).wrapping_mul(factor)
}

/// Splitmix64, from a state made of both.
#[tactic(auto, unfolding(crate::specs::Mixing::mix_of, crate::specs::Mixing::splitmix))]
pub fn mix(choice: u64, n: u64) -> u64
    ensures { result ≡ mix_of choice n }
{
    let state = (choice ^ n.wrapping_mul(GOLDEN)).wrapping_add(GOLDEN);
    let z = stir(stir(state, 30, 0xbf58476d1ce4e5b9), 27, 0x94d049bb133111eb);
    z ^ (z >> 31)
}

/// Words that nothing can have meant.
pub fn scramble(room: &mut [u64], choice: u64)
    ensures { (i : ℕ) → i < length room.new → slice_index room.new i ≡ mix_of choice i }
{
    for (i, word) in room.iter_mut().enumerate() {
        *word = mix(choice, i as u64);
    }
}
