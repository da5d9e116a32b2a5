//! Users of a list that is replaced by another one.

ghost use Rattle.std.specs.Prelude.{◌≡◌, ◌≤◌, length, map};
ghost use Rattle.control.specs.Users.{is_same_user, index_of_user};
ghost use Rattle.control.specs.declared.config.TheConstants.{MAX_USERS};

use crate::config::MAX_USERS;
use arrayvec::ArrayVec;
use credentials::User;

/// Returns whether two users have one name and one password.
fn is_same(user: &User, other: &User) -> bool
    ensures { result ≡ is_same_user user.now other.now }
{
    user.name.as_str() == other.name.as_str() && user.password.as_str() == other.password.as_str()
}

/// Returns the index of a user among some; `None` where it is none of them.
fn index_of(users: &[User], user: &User) -> Option<usize>
    ensures { result ≡ index_of_user users.now user.now }
{
    users.iter().position(|other| is_same(user, other))
}

/// Returns for each of at most [`MAX_USERS`] users the index that it has among the users that replace them, with the
/// same name and the same password; `None` where these haven't that user.
/// See docs/DECISIONS.md, "Users that are replaced".
pub fn new_indices(old: &[User], new: &[User]) -> ArrayVec<Option<usize>, MAX_USERS>
    requires { length old.now ≤ MAX_USERS }
    ensures { result.items ≡ map (index_of_user new.now) old.now }
{
    let mut indices = ArrayVec::new();
    for user in old {
        indices.push(index_of(new, user));
    }
    indices
}
