//! The words of a text, the tree of the smallest source, and its program.

ghost use Rattle.std.specs.Prelude.{◌≡◌, ◌∷◌, [], Some, None, Ok, codes, pos};
ghost use Rattle.apex_types.specs.declared.place.Place.TheVariants.{Slot};
ghost use Rattle.apex_types.specs.declared.service.Service.TheVariants.{GetTime, SetPartitionMode};
ghost use Rattle.pal_laws.specs.GrammarReading.{program_at};
ghost use Rattle.pal_meaning.specs.Grammar.{Mark, Name, Number, ServiceWord, Stray, words_of};
ghost use Rattle.pal_meaning.specs.Program as program;
ghost use Rattle.meaning_rows.specs.Rows.{plain_partition, program_of};
ghost use Rattle.pal_meaning.specs.Syntax as written;

/// From bytes to words, from words to a tree, and from that to a program.
fn a_source_is_read()
    ensures words { words_of (codes "x1:=-2>=y;#:=\n GET_TIME 9223372036854775808 A!") ≡ Name (codes "x1") ∷ Mark (codes ":=") ∷ Mark (codes "-") ∷ Number (Some 2) ∷ Mark (codes ">=") ∷ Name (codes "y") ∷ Mark (codes ";") ∷ ServiceWord GetTime ∷ Number None ∷ Stray ∷ Stray ∷ [] }
    ensures tree { program_at (words_of (codes "init stack 16 { local r; SET_PARTITION_MODE(3) -> r; }")) ≡ Ok (record {
      declarations = [];
      init = record {
        stack = Some 16;
        body = record {
          locals = codes "r" ∷ [];
          block = written.MoreStmts (written.CallService SetPartitionMode (written.MoreExprs (written.Number (Some 3)) written.NoExpr) (codes "r" ∷ [])) written.NoStmt;
        };
      };
      handler = None;
      processes = [];
    }) }
    ensures program { program_of (plain_partition (codes "a") 128 128) (codes "init stack 16 { local r; SET_PARTITION_MODE(3) -> r; }") ≡ Some (record {
      initial = [];
      semaphores = [];
      events = 0;
      buffers = [];
      blackboards = [];
      procedures = [];
      init = record {
        stack = 16;
        locals = 1;
        block = program.MoreStmts (program.CallService SetPartitionMode (program.MoreExprs (program.Literal (pos 3)) program.NoExpr) (Slot 0 ∷ [])) program.NoStmt;
      };
      handler = None;
      processes = [];
    }) }
{}
