//! The laws of scripts.
ghost use Rattle.std.specs.Prelude.{◌≡◌, ℕ, List, Some};
ghost use Rattle.std.specs.Io.KnownBytes.{Appends};
ghost use Rattle.rds_io.specs.Told.{Traffic};
ghost use Rattle.rds_io.specs.Alike.{WriteAlike};
ghost use Rattle.rds_script.specs.Rows.{Record, SaysEvent};
ghost use Rattle.rds_script.specs.Play.{PlaysAll, RowsWrite, ScriptWrites};
ghost use Rattle.rds_script.specs.declared.play.Playing.{Playing};
ghost use Rattle.rds_world.specs.Event.{Event};

use rds_charset::text_is_read_one_way;
use rds_fields::one_group;

/// Shows that the output of a script is a function of its records: a row is one event, and rows write one output.
pub fn rows_write_one_output()
    ensures one_event { (row : Record) (e f : Event) → SaysEvent row e → SaysEvent row f → e ≡ f }
    ensures one_output { (how : Playing) (records : List Record)
        (written other : List ℕ) → RowsWrite how records written
        → RowsWrite how records other → written ≡ other }
{
    // A text is read in one way, and a message is one group: these laws are used below.
    text_is_read_one_way();
    one_group();
}

/// Shows that the output of a script is a function of its bytes: they write one output, a call of `simulate` or
/// `encode` that ends without a fault wrote it, and two such calls wrote the same.
pub fn script_writes_one_output()
    ensures one_output { (how : Playing) (script written other : List ℕ)
        → ScriptWrites how script written → ScriptWrites how script other
        → written ≡ other }
    ensures written { (how : Playing) (most : ℕ) (script : List ℕ) (w : Traffic)
        → PlaysAll how most (Some script) w
        → (written : List ℕ) × ScriptWrites how script written
        × Appends w.before w.after written }
    ensures alike { (how : Playing) (most others : ℕ) (script : List ℕ)
        (w v : Traffic) → PlaysAll how most (Some script) w
        → PlaysAll how others (Some script) v → WriteAlike w v }
{
    text_is_read_one_way();
    one_group();
}
