ghost use Rattle.std.specs.Prelude.{◌≡◌};

use db_model::{
    ColumnDecl, Declaration, KeyDecl, NamedBlock, Protocol, SectionDecl, ShowTemplate, SumTemplate,
    TableDecl, VarDecl,
};

/// A declaration with the line at which it begins.
pub trait Located: Declaration {
    ghost use Rattle.std.specs.Prelude.{ℕ};

    ghost at: { Self → ℕ };

    fn line(&self) -> u32
        ensures { result ≡ at self.now };
}

impl Located for Protocol {
    ghost at = { λ d. d.line };

    fn line(&self) -> u32 {
        self.line
    }
}

impl Located for VarDecl {
    ghost at = { λ d. d.line };

    fn line(&self) -> u32 {
        self.line
    }
}

impl Located for TableDecl {
    ghost at = { λ d. d.line };

    fn line(&self) -> u32 {
        self.line
    }
}

impl Located for KeyDecl {
    ghost at = { λ d. d.line };

    fn line(&self) -> u32 {
        self.line
    }
}

impl Located for ColumnDecl {
    ghost at = { λ d. d.line };

    fn line(&self) -> u32 {
        self.line
    }
}

impl Located for ShowTemplate {
    ghost at = { λ d. d.line };

    fn line(&self) -> u32 {
        self.line
    }
}

impl Located for SumTemplate {
    ghost at = { λ d. d.line };

    fn line(&self) -> u32 {
        self.line
    }
}

impl Located for SectionDecl {
    ghost at = { λ d. d.line };

    fn line(&self) -> u32 {
        self.line
    }
}

impl Located for NamedBlock {
    ghost at = { λ d. d.line };

    fn line(&self) -> u32 {
        self.line
    }
}
