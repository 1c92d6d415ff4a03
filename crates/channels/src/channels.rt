//! The channels between the roles.

use crate::channel::Channel;

/// The channels between 6 roles, one for each ordered pair; that from role `a` to role `b` is number `6 * a + b`.
// Fixed memory, in one row of 36: that every other pair stays is one comparison of numbers, where six rows of six would
// be compared twice.
#[derive(Drop)]
pub struct Channels {
    pub(crate) channels: [Channel; 36],
}
