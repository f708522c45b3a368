use crate::engine::Engine;
use crate::ready::Ready;
use crate::receipt::Receipt;
use crate::texts::Texts;
use db_model::{CheckedDb, Packet, Sequence};
use pdl_code::Code;
use session::{Session, SessionView};

/// What threads may share.
trait Shared: Send + Sync {}

impl Shared for CheckedDb {}

impl Shared for Code {}

impl Shared for Engine {}

impl Shared for SessionView {}

impl Shared for Sequence<Packet> {}

/// What one thread may hand on to another.
trait HandedOn: Send {}

impl HandedOn for Session {}

impl HandedOn for Packet {}

impl HandedOn for Texts {}

impl HandedOn for Receipt {}

impl HandedOn for Ready {}
