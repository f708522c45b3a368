use db_model::Packet;

/// What a reader of a capture gives next.
#[derive(Drop)]
pub enum Next {
    Packet(Packet),
    /// Nothing is left.
    End,
}
