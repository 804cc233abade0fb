//! The forms of a file, cut at its semicolons.

ghost use Rattle.std.specs.Prelude.{◌≡◌, ◌++◌, IfOk, OnOk, map, flat_map};
ghost use Rattle.dy_tree.specs.Fragments.{seen_fragment, seen_fragments};
ghost use Rattle.dy_fragment.specs.Words.{is_semicolon};
ghost use Rattle.dy_reader.specs.Answers as parser;
ghost use Rattle.dy_verdict.specs.Pieces.{semicolon_of, seen_piece, place_of, pieces_of};
ghost use Rattle.dy_verdict.specs.Trees.{seen_file};

use dy_base::Place;
use dy_tree::{Fragment, Token};
use std::alloc::{AllocError, Global};

/// What stands in front of a semicolon or of the end of a file.
#[derive(Debug, Drop)]
pub(crate) struct Piece {
    pub(crate) fragments: Vec<Fragment>,
    /// Where the semicolon stands, if there is one.
    pub(crate) end: Option<Place>,
}

/// Whether a token is a semicolon.
fn is_semicolon(token: &Token) -> bool
    ensures { result ≡ is_semicolon token.now }
{
    token.is_sign(b";")
}

/// Where a semicolon stands, if the fragment is one.
fn semicolon_of(fragment: &Fragment) -> Option<Place>
    ensures { result ≡ semicolon_of (seen_fragment fragment.now) }
{
    match fragment {
        Fragment::One(token) => {
            if is_semicolon(token) {
                Some(token.place)
            } else {
                None
            }
        }
        Fragment::Group { .. } => None,
    }
}

/// Where the first token stands.
fn first_place(fragments: &[Fragment]) -> Option<Place>
    ensures { result ≡ parser.first_place (seen_fragments fragments.now) }
{
    match fragments.first() {
        Some(Fragment::One(token)) => Some(token.place),
        Some(Fragment::Group { opener, .. }) => Some(opener.place),
        None => None,
    }
}

/// Where a form begins: at its first token, or else at the semicolon behind it.
pub(crate) fn place_of(piece: &Piece) -> Place
    ensures { result ≡ place_of (seen_piece piece.now) }
{
    match first_place(&piece.fragments) {
        Some(place) => place,
        None => match piece.end {
            Some(place) => place,
            None => Place { file: 0, offset: 0 },
        },
    }
}

/// The forms of a file. Where nothing stands behind the last semicolon there is none.
fn pieces_of(alloc: Global, fragments: Vec<Fragment>) -> Result<Vec<Piece>, AllocError>
    ensures { IfOk result (λ pieces. map seen_piece pieces.items
        ≡ pieces_of (seen_fragments fragments.items)) }
{
    let mut pieces = Vec::new(alloc);
    let mut current = Vec::new(alloc);
    for fragment in fragments {
        match semicolon_of(&fragment) {
            Some(place) => {
                let end = Some(place);
                pieces.push(Piece {
                    fragments: current,
                    end,
                })?;
                current = Vec::new(alloc);
            }
            None => current.push(fragment)?,
        }
    }
    if current.len() > 0 {
        pieces.push(Piece {
            fragments: current,
            end: None,
        })?;
    }
    Ok(pieces)
}

/// Adds pieces behind others.
fn append(pieces: &mut Vec<Piece>, more: Vec<Piece>) -> Result<(), AllocError>
    ensures { OnOk result (pieces.new.items ≡ pieces.old.items ++ more.items) }
{
    for piece in more {
        pieces.push(piece)?;
    }
    Ok(())
}

/// The forms of files, one file after the other.
pub(crate) fn pieces_of_files(
    alloc: Global,
    files: Vec<Vec<Fragment>>,
) -> Result<Vec<Piece>, AllocError>
    ensures { IfOk result (λ pieces. map seen_piece pieces.items
        ≡ flat_map pieces_of (map seen_file files.items)) }
{
    let mut pieces = Vec::new(alloc);
    for file in files {
        let more = pieces_of(alloc, file)?;
        append(&mut pieces, more)?;
    }
    Ok(pieces)
}
