// The mnemonics of the commands.
ghost use Rattle.std.specs.Prelude.{◌≡◌};
ghost use Rattle.std.specs.Char.{to_ascii_uppercase};
ghost use Rattle.command.specs.Mnemonics.{chosen, Named, capitals_name, mnemonic_of};

use crate::mnemonic::Mnemonic;

// No `TryFrom<[u8; 2]>`: it would hold the same match, and an error that nobody reads.
/// The command that two letters name, small ones counting as capitals.
pub fn mnemonic_of(a: u8, b: u8) -> Option<Mnemonic>
    ensures name { result ≡ mnemonic_of a b }
    ensures letters { Named (to_ascii_uppercase a) (to_ascii_uppercase b) result }
{
    named_by_capitals(a.to_ascii_uppercase(), b.to_ascii_uppercase())
}

/// The command that two capitals name.
fn named_by_capitals(a: u8, b: u8) -> Option<Mnemonic>
    ensures name { result ≡ capitals_name a b }
    ensures letters { Named a b result }
{
    choose(a, b)
}

/// The table of commands.
fn choose(a: u8, b: u8) -> Option<Mnemonic>
    ensures { result ≡ chosen a b }
{
    match (a, b) {
        (b'V', b'A') => Some(Mnemonic::Va),
        (b'A', b'C') => Some(Mnemonic::Ac),
        (b'A', b'G') => Some(Mnemonic::Ag),
        (b'S', b'L') => Some(Mnemonic::Sl),
        (b'S', b'R') => Some(Mnemonic::Sr),
        (b'F', b'P') => Some(Mnemonic::Fp),
        (b'M', b'O') => Some(Mnemonic::Mo),
        (b'M', b'F') => Some(Mnemonic::Mf),
        (b'P', b'A') => Some(Mnemonic::Pa),
        (b'P', b'R') => Some(Mnemonic::Pr),
        (b'S', b'T') => Some(Mnemonic::St),
        (b'D', b'H') => Some(Mnemonic::Dh),
        (b'W', b'S') => Some(Mnemonic::Ws),
        (b'I', b'D') => Some(Mnemonic::Id),
        (b'T', b'P') => Some(Mnemonic::Tp),
        (b'D', b'P') => Some(Mnemonic::Dp),
        (b'M', b'D') => Some(Mnemonic::Md),
        (b'H', b'N') => Some(Mnemonic::Hn),
        (b'H', b'X') => Some(Mnemonic::Hx),
        (b'H', b'V') => Some(Mnemonic::Hv),
        (b'H', b'A') => Some(Mnemonic::Ha),
        (b'H', b'D') => Some(Mnemonic::Hd),
        (b'H', b'O') => Some(Mnemonic::Ho),
        (b'H', b'F') => Some(Mnemonic::Hf),
        (b'H', b'L') => Some(Mnemonic::Hl),
        (b'H', b'P') => Some(Mnemonic::Hp),
        (b'H', b'W') => Some(Mnemonic::Hw),
        (b'A', b'B') => Some(Mnemonic::Ab),
        (b'W', b'T') => Some(Mnemonic::Wt),
        (b'T', b'B') => Some(Mnemonic::Tb),
        (b'T', b'E') => Some(Mnemonic::Te),
        _ => None,
    }
}
