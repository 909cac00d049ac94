// The definitions of what is written and of what is called for, with their theorems. There is no code here but the choice that a caller makes,
// and which number stands for it.
#![tactic(auto)]

ghost use Rattle.std.specs.Prelude.{◌≡◌};
ghost use Rattle.smt_text.specs.Editions.{edition_of};

// Whose names the set functions have in a script.
#[derive(Clone, Copy)]
pub enum Edition {
    Z3,
    Cvc5,
}

// The edition of a number: 0 is Z3, any other cvc5.
impl From<u8> for Edition {
    ghost from_gives = { λ number edition. edition ≡ edition_of number };

    #[tactic(auto, unfolding(crate::specs::Editions::edition_of))]
    fn from(number: u8) -> Edition {
        match number {
            0 => Edition::Z3,
            _ => Edition::Cvc5,
        }
    }
}
