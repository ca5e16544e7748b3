ghost use Rattle.std.specs.Prelude.{◌≡◌, IfOk};

use regex_ast::{Piece, Raw};
use std::alloc::{AllocError, Global};

/// A copy of pieces, which shares their texts.
pub fn copy_of(alloc: Global, pieces: &[Piece<Raw>]) -> Result<Vec<Piece<Raw>>, AllocError>
    ensures { IfOk result (λ copy. copy.items ≡ pieces.now) }
{
    let mut copy = Vec::with_capacity(alloc, pieces.len())?;
    'pieces: for piece in pieces {
        copy.push(same_piece(piece)?)?;
    }
    Ok(copy)
}

/// The same piece.
fn same_piece(piece: &Piece<Raw>) -> Result<Piece<Raw>, AllocError>
    ensures { IfOk result (λ same. same ≡ piece.now) }
{
    match piece {
        Piece::Symbol(raw) => Ok(Piece::Symbol(same_raw(raw)?)),
        Piece::Flag(flag) => Ok(Piece::Flag(flag.clone()?)),
    }
}

/// The same leaf.
fn same_raw(raw: &Raw) -> Result<Raw, AllocError>
    ensures { IfOk result (λ same. same ≡ raw.now) }
{
    match raw {
        Raw::Run(text) => Ok(Raw::Run(text.clone()?)),
        Raw::Quoted(text) => Ok(Raw::Quoted(text.clone()?)),
    }
}
