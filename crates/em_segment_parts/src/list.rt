//! A chain that stands in a list of chains.

ghost use Rattle.std.specs.Prelude.{◌≡◌};
ghost use Rattle.em_chain.specs.Chain.{empty_chain};

use em_chain::Chain;

/// One of several lists: the points of a strip, the pieces that go down into one, or those of a multislab.
#[derive(Drop)]
pub struct Listed {
    pub chain: Chain,
}

impl Default for Listed {
    ghost is_default = { λ l. l.chain ≡ empty_chain };

    fn default() -> Self {
        Listed {
            chain: Chain::empty(),
        }
    }
}
