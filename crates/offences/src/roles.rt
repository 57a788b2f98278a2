//! What types are beside the channels of transistors.
ghost use Rattle.std.specs.Prelude.{◌≡◌};
ghost use Rattle.std.specs.Option.{option_map};
ghost use Rattle.offences.specs.Changes.{number_of, told_role};
ghost use Rattle.offences.specs.Roles.{role_of};

use tech_model::{RawTech, TypeId};

/// What a type is beside a channel: more of it, a terminal of the transistor, or neither.
#[derive(Clone, Copy, Debug, PartialEq, Eq)]
pub enum Role {
    Channel,
    Terminal,
    Other,
}

/// What a type is beside a channel. An undefined one is neither of the two, and so is space.
pub fn role_of(raw: &RawTech, channel: TypeId, kind: Option<TypeId>) -> Role
    ensures { result ≡ told_role (role_of raw.now channel.0 (option_map number_of kind)) }
{
    match kind {
        None => Role::Other,
        Some(kind) => {
            if kind.0 == channel.0 {
                Role::Channel
            } else if raw.is_terminal(channel, kind) {
                Role::Terminal
            } else {
                Role::Other
            }
        }
    }
}
