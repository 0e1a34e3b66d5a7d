// Whether one request, whatever its kind, is turned down, and what for.
ghost use Rattle.std.specs.Prelude.{◌≡◌, true};
ghost use Rattle.guard.specs.Requests.{rule_of};
ghost use Rattle.guard.specs.Private.Decision.{answer_of};
ghost use Rattle.guard.specs.Private.Inside.{number, Seen};
ghost use Rattle.guard.specs.Private.InForce.{in_ranges};
ghost use Rattle.guard.specs.declared.Tables.{Tables as TablesOf};

use crate::refusal::Refusal;
use crate::view::View;
use crate::{Request, entities, kinds, opens, roles, sessions};
use bitset::Set;

// A rule of the project: ONE match over the kinds decides, and a number that is none of the nineteen falls in its closing range.
pub fn judge(q: Request, v: View) -> Result<(), Refusal>
    requires { in_ranges q ≡ true }
    ensures { (t : TablesOf) → Seen t q v → answer_of result ≡ number (rule_of q) t q }
{
    match q.call {
        kinds::LOGIN => sessions::login_refusal(q, v),
        kinds::LOGOUT => sessions::logout_refusal(v),
        kinds::TAKE => sessions::take_refusal(q, v),
        kinds::DROP => sessions::drop_refusal(q, v),
        kinds::OPENR => opens::openr_refusal(q, v),
        kinds::OPENW => opens::openw_refusal(q, v),
        kinds::CLOSE => opens::close_refusal(q, v),
        kinds::CREATE => entities::create_refusal(q, v),
        kinds::DELETE => entities::change_refusal(q, v, Refusal::InUse),
        kinds::RENAME => entities::change_refusal(q, v, Refusal::NameTaken),
        kinds::GRANT => roles::rights_refusal(q, v),
        kinds::REVOKE => roles::rights_refusal(q, v),
        kinds::LIST => roles::list_refusal(q, v, v.users.has(q.user)),
        kinds::UNLIST => roles::list_refusal(q, v, !v.users.has(q.user)),
        kinds::MAKE => roles::make_refusal(q, v),
        kinds::UNMAKE => roles::unmake_refusal(q, v),
        kinds::SHARE => entities::share_refusal(q, v),
        // In two arms, as list and unlist, every request costs some 20 instructions more.
        kinds::JOIN | kinds::UNJOIN => roles::tie_refusal(q, v),
        kinds::KINDS..=4294967295 => Err(Refusal::OutOfRange),
    }
}
