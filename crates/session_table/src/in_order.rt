ghost use Rattle.std.specs.Prelude.{IfOk, IfErr};
ghost use Rattle.session_table.specs.inner.Ordered.{NamesRise, HasName, IsGapFor};

use crate::short_name::ShortName;
use scratch_pool::Block;

/// A session's name and block. It is not `Drop`, so the block is given back.
pub(crate) struct Open {
    pub(crate) name: ShortName,
    pub(crate) block: Block,
}

/// Returns the place of the session of a name, or as `Err` the place where it belongs.
pub(crate) fn find_place(sessions: &[Open], name: &[u8]) -> Result<usize, usize>
    requires { NamesRise sessions.now }
    ensures found { IfOk result (λ place. HasName sessions.now place name.now) }
    ensures gap { IfErr result (λ place. IsGapFor sessions.now place name.now) }
{
    sessions.binary_search_by(|session| session.name.compare(name))
}
