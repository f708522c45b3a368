use crate::token::Token;

/// What stands at a place of a text where no space stands.
#[derive(Drop)]
pub enum Lexeme {
    Token(Token),
    /// A byte with which no token begins.
    Nothing,
    /// A number that is too long or too great.
    TooGreat,
    /// A text that the end cuts off.
    Unfinished,
}

/// A lexeme, and how many bytes it has.
#[derive(Drop)]
pub struct Scanned {
    pub lexeme: Lexeme,
    pub size: usize,
}
