//! The role that a rank has in a collective is that of its member of the pure network.

ghost use Rattle.proof_collective_steps.specs.RoleViews.{RolesMeet};

/// States that what `collective_messages` says that a rank is in a collective is what the network says of its member:
/// whose word it waits for, in the same order, whom it tells its word, whether it leaves without being told, and whom
/// it tells a result.
///
/// It does nothing when it is called.
pub fn roles_meet()
    ensures { RolesMeet }
{}
