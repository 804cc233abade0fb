//! Laws of the tokens of texts.

ghost use Rattle.std.specs.Prelude.{◌≡◌, ◌↔◌, ℕ, ◌≤◌, ◌++◌, ◌==◌, Bool, true, false, List, length};
ghost use Rattle.std.specs.Prelude.{Ok, Err, Some};
ghost use Rattle.dy_base.specs.declared.fault.Fault.{Fault};
ghost use Rattle.dy_tree.specs.declared.token.Token.{Token};
ghost use Rattle.dy_pieces.specs.declared.class.Piece.{Piece};
ghost use Rattle.dy_pieces.specs.Pieces.{piece_at};
ghost use Rattle.dy_pieces.specs.Scan.{decoded, literal_end, comment_end};
ghost use Rattle.dy_pieces.specs.Characters.{Characters};
ghost use Rattle.dy_pieces.specs.Enclosed.{Literal, Comment};
ghost use Rattle.dy_pieces.specs.Forms.{Begins};
ghost use Rattle.dy_lexer.specs.Tokens.{tokens_of};
ghost use Rattle.dy_lexer.specs.Cut.{Cut, Broken, Judged};
ghost use Rattle.dy_lexer.specs.Headers.{Opened, IsHeader, are_printable};
ghost use Rattle.dy_lexer.specs.Sources.{IsSource, IsFirst, IsLid, IsLidFault};
ghost use Rattle.dy_lexer.specs.declared.source.Source.{Source};
ghost use Rattle.dy_lexer.specs.declared.source.Lid.{Lid};

/// What holds of the tokens of every text.
pub fn token_laws()
    // What is read is cut into pieces so, and a fault is the first one.
    ensures judged { (n file at : ℕ) (text : List ℕ) → length text ≤ n
        → Judged file at text (tokens_of n file at text) }
    // What is so cut is read.
    ensures cut { (file n at : ℕ) (text : List ℕ) (ts : List Token) → length text ≤ n
        → Cut file at text ts → tokens_of n file at text ≡ Ok ts }
    // What has a first fault is refused with it.
    ensures broken { (file n at : ℕ) (text : List ℕ) (f : Fault) → length text ≤ n
        → Broken file at text f → tokens_of n file at text ≡ Err f }
    // No text has two lists of tokens.
    ensures one { (file at : ℕ) (text : List ℕ) (ts us : List Token) → Cut file at text ts
        → Cut file at text us → ts ≡ us }
    // No text has two first faults.
    ensures one_fault { (file at : ℕ) (text : List ℕ) (f g : Fault) → Broken file at text f
        → Broken file at text g → f ≡ g }
    // No text has tokens and a fault.
    ensures apart { (file at : ℕ) (text : List ℕ) (ts : List Token) (f : Fault)
        → Cut file at text ts → Broken file at text f → ⊥ }
    // The next piece of a text is one, of one kind.
    ensures next { (kind : Piece) (piece rest : List ℕ) → Begins kind piece rest
        → piece_at (piece ++ rest) ≡ Ok (kind, length piece) }
    // What the characters of a literal stand for is read as they are spelled.
    ensures characters { (tabs : Bool) (text values : List ℕ) → (decoded tabs text ≡ Some values)
        ↔ Characters tabs text values }
    // A literal ends at the quote that closes it.
    ensures literals { (quote : ℕ) → (quote == 10) ≡ false → (92 == quote) ≡ false → (body : List ℕ)
        → (literal_end quote false body ≡ Some (length body)) ↔ Literal quote body }
    // A block comment ends with the mark that closes it.
    ensures comments { (body : List ℕ) → (comment_end 1 0 body ≡ Some (length body))
        ↔ Comment 1 body }
    // No file has two headers.
    ensures one_header { (lid : Bool) (text : List ℕ) (a b : Opened)
        → IsHeader lid text a.head a.at a.body → IsHeader lid text b.head b.at b.body → a ≡ b }
    // No source file says two things, has two first faults, or both.
    ensures one_source { (file : ℕ) (text : List ℕ) (a b : Source) → IsSource file text a
        → IsSource file text b → a ≡ b }
    ensures one_source_fault { (file : ℕ) (text : List ℕ) (f g : Fault) → IsFirst file text f
        → IsFirst file text g → f ≡ g }
    ensures source_apart { (file : ℕ) (text : List ℕ) (s : Source) (f : Fault)
        → IsSource file text s → IsFirst file text f → ⊥ }
    // The same of LID files.
    ensures one_lid { (text : List ℕ) (a b : Lid) → IsLid text a → IsLid text b → a ≡ b }
    ensures one_lid_fault { (text : List ℕ) (f g : Fault) → IsLidFault text f → IsLidFault text g
        → f ≡ g }
    ensures lid_apart { (text : List ℕ) (l : Lid) (f : Fault) → IsLid text l → IsLidFault text f
        → ⊥ }
    // Each file that a LID file names has a name of printable bytes of ASCII.
    ensures file_names { (text : List ℕ) (l : Lid) → IsLid text l → are_printable l.files ≡ true }
{}
