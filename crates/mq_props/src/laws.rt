//! What it means for the reading of property lists to be exact.

ghost use Rattle.std.specs.Prelude.{◌≡◌, ◌↔◌, ℕ, List, [], Ok, Err};
ghost use Rattle.mq_wire.specs.Left.{Left};
ghost use Rattle.mq_wire.specs.Spellings.{AreBytes};
ghost use Rattle.mq_props.specs.declared.fault.PropFault.{PropFault};
ghost use Rattle.mq_props.specs.declared.table.Place.{Place};
ghost use Rattle.mq_props.specs.Values.{Property, body};
ghost use Rattle.mq_props.specs.Allowed.{AreAllowed};
ghost use Rattle.mq_props.specs.Breaks.{BreaksList};
ghost use Rattle.mq_props.specs.Reading.{properties_on, list_on};

/// Bytes are read as the properties of a place exactly if they spell them.
pub fn properties_are_exact()
    // What is read is spelled by the bytes, and is a valid list for the place.
    ensures only { (place : Place) (at : ℕ) (bytes : List ℕ) (ps : List Property) → AreBytes bytes
        → properties_on place [] (record { at = at; rest = bytes }) ≡ Ok ps → (bytes ≡ body ps) × AreAllowed place ps }
    // What is a valid list there is read from its spelling.
    ensures all { (place : Place) (at : ℕ) (ps : List Property) → AreAllowed place ps
        → properties_on place [] (record { at = at; rest = body ps }) ≡ Ok ps }
{}

/// Reading a property list fails with a fault exactly if that is its first one.
pub fn property_faults_are_exact()
    ensures breaks { (place : Place) (left : Left) (fault : PropFault) → AreBytes left.rest
        → (list_on place left ≡ Err fault) ↔ BreaksList place left fault }
{}
