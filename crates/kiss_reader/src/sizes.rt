// The sizes of a machine that a card can hold.
ghost use Rattle.std.specs.Prelude.{◌≡◌, ◌≤◌};
ghost use Rattle.games.specs.Format.{max_actions, max_observations, max_cells};
ghost use Rattle.kiss.specs.Text.{bits};
ghost use Rattle.kiss_reader.specs.Sizing.{Sized};

use form::Numeral;

// Actions, observations and cells; how an input and an output are written.
#[derive(Clone, Copy)]
pub struct Sizes {
    pub actions: u32,
    pub observations: u32,
    pub cells: u32,
    pub input: Numeral,
    pub output: Numeral,
    ghost sized: { Sized actions observations cells input output },
}

// Numbers of so many bits.
fn binary(width: u32) -> Numeral
    requires { width ≤ 3 }
    ensures { (result.base ≡ 2) × (result.width ≡ width) }
{
    Numeral {
        base: 2,
        width,
        power: 1 << width,
    }
}

impl Sizes {
    #[tactic(auto, using(kiss::proofs::Widths::bits_few))]
    pub fn new(actions: u32, observations: u32, cells: u32) -> Sizes
        requires { (1 ≤ actions) × (actions ≤ max_actions) × (1 ≤ observations) × (observations ≤ max_observations) × (1 ≤ cells) × (cells ≤ max_cells) }
        ensures { (result.actions ≡ actions) × (result.observations ≡ observations) × (result.cells ≡ cells) }
    {
        Sizes {
            actions,
            observations,
            cells,
            input: binary(kiss::bits(observations)),
            output: binary(kiss::bits(actions)),
        }
    }
}
