// What kind of command a mnemonic is.
ghost use Rattle.std.specs.Prelude.{◌≡◌};
ghost use Rattle.rules.specs.Kinds.{among, axis_commands, group_commands, askable, with_one, needing_one, group_figures, barred_to_members, error_commands};
ghost use Rattle.rules.specs.Replies.{telling};

use command::mnemonic::Mnemonic;

/// Its prefix is an axis, and needed.
pub fn names_axis(m: Mnemonic) -> bool
    ensures { result ≡ among axis_commands m }
{
    matches!(
        m,
        Mnemonic::Va
            | Mnemonic::Ac
            | Mnemonic::Ag
            | Mnemonic::Sl
            | Mnemonic::Sr
            | Mnemonic::Fp
            | Mnemonic::Mo
            | Mnemonic::Mf
            | Mnemonic::Pa
            | Mnemonic::Pr
            | Mnemonic::St
            | Mnemonic::Dh
            | Mnemonic::Id
            | Mnemonic::Tp
            | Mnemonic::Dp
            | Mnemonic::Md
    )
}

/// Its prefix is a group.
pub fn names_group(m: Mnemonic) -> bool
    ensures { result ≡ among group_commands m }
{
    matches!(
        m,
        Mnemonic::Hn
            | Mnemonic::Hx
            | Mnemonic::Hv
            | Mnemonic::Ha
            | Mnemonic::Hd
            | Mnemonic::Ho
            | Mnemonic::Hf
            | Mnemonic::Hl
            | Mnemonic::Hp
            | Mnemonic::Hw
    )
}

/// It offers a question mark.
pub fn offers_question(m: Mnemonic) -> bool
    ensures { result ≡ among askable m }
{
    matches!(
        m,
        Mnemonic::Va
            | Mnemonic::Ac
            | Mnemonic::Ag
            | Mnemonic::Sl
            | Mnemonic::Sr
            | Mnemonic::Fp
            | Mnemonic::Mo
            | Mnemonic::Mf
            | Mnemonic::Pa
            | Mnemonic::Id
            | Mnemonic::Tp
            | Mnemonic::Dp
            | Mnemonic::Md
            | Mnemonic::Hn
            | Mnemonic::Hv
            | Mnemonic::Ha
            | Mnemonic::Hd
            | Mnemonic::Hp
            | Mnemonic::Tb
            | Mnemonic::Te
    )
}

/// It takes one parameter.
pub fn takes_one(m: Mnemonic) -> bool
    ensures { result ≡ among with_one m }
{
    matches!(
        m,
        Mnemonic::Va
            | Mnemonic::Ac
            | Mnemonic::Ag
            | Mnemonic::Sl
            | Mnemonic::Sr
            | Mnemonic::Fp
            | Mnemonic::Pa
            | Mnemonic::Pr
            | Mnemonic::Dh
            | Mnemonic::Hv
            | Mnemonic::Ha
            | Mnemonic::Hd
            | Mnemonic::Wt
    )
}

/// It needs a parameter: a missing one is told as missing.
pub fn needs_one(m: Mnemonic) -> bool
    ensures { result ≡ among needing_one m }
{
    matches!(
        m,
        Mnemonic::Va
            | Mnemonic::Ac
            | Mnemonic::Ag
            | Mnemonic::Sl
            | Mnemonic::Sr
            | Mnemonic::Fp
            | Mnemonic::Pa
            | Mnemonic::Pr
            | Mnemonic::Wt
    )
}

/// It sets a figure of a group: a missing parameter is told as out of range.
pub fn sets_group_figure(m: Mnemonic) -> bool
    ensures { result ≡ among group_figures m }
{
    matches!(m, Mnemonic::Hv | Mnemonic::Ha | Mnemonic::Hd)
}

/// A member of a group does not take it.
pub fn is_barred_to_members(m: Mnemonic) -> bool
    ensures { result ≡ among barred_to_members m }
{
    matches!(
        m,
        Mnemonic::Mo
            | Mnemonic::Mf
            | Mnemonic::Pa
            | Mnemonic::Pr
            | Mnemonic::St
            | Mnemonic::Dh
            | Mnemonic::Sl
            | Mnemonic::Sr
    )
}

/// It answers without a question mark.
pub fn tells(m: Mnemonic) -> bool
    ensures { result ≡ among telling m }
{
    matches!(
        m,
        Mnemonic::Id | Mnemonic::Tp | Mnemonic::Dp | Mnemonic::Md | Mnemonic::Hp
    )
}

/// It answers and takes out the oldest error.
pub fn reads_errors(m: Mnemonic) -> bool
    ensures { result ≡ among error_commands m }
{
    matches!(m, Mnemonic::Tb | Mnemonic::Te)
}
