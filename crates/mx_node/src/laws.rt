//! Theorems that other crates may use.

ghost use Rattle.std.specs.Prelude.{◌≡◌, ℕ, List, ◌++◌};
ghost use Rattle.mx_node.specs.declared.out_units.OutUnit.{OutUnit};
ghost use Rattle.mx_model.specs.Histories.{History, HasMemory, IsLegal};
ghost use Rattle.mx_serial.specs.Order.{order_in};
ghost use Rattle.mx_node.specs.Inputs.{InputUnit};
ghost use Rattle.mx_node.specs.Order.{AreStepsOf};
ghost use Rattle.mx_node.specs.Connections.{came_on};
ghost use Rattle.mx_node.specs.Outputs.{AnswersAll, bytes_on, sent_to};
ghost use Rattle.mx_node.specs.Starts.{Start};

/// A theorem, which does nothing when it is called: a history answers units exactly where it has their
/// steps, in their order.
pub fn answers_have_the_order_of_units()
    ensures order { (start : Start) (units : List InputUnit) (history : History) (sent : List OutUnit) → AnswersAll start units history sent
        → AreStepsOf units (order_in history) }
    ensures answers { (start : Start) (units : List InputUnit) (history : History) → AreStepsOf units (order_in history)
        → (sent : List OutUnit) × AnswersAll start units history sent }
{}

/// A theorem, which does nothing when it is called: however its bytes came in units, all that a
/// connection is sent ends with what it is sent since it was opened.
pub fn what_is_sent_ends_with_what_is_due()
    ensures { (start : Start) (units : List InputUnit) (history : History) (sent : List OutUnit) (connection : ℕ) → AnswersAll start units history sent
        → (before : List ℕ) × (bytes_on connection sent ≡ before ++ sent_to start connection (came_on connection units) history) }
{}

/// A theorem, which does nothing when it is called: two legal histories that answer the same units, and
/// in which no request was out of memory, are sent the same.
pub fn what_is_sent_is_determined()
    ensures { (start : Start) (units : List InputUnit) (one other : History) (sent more : List OutUnit) → IsLegal start.base one → HasMemory one
        → AnswersAll start units one sent → IsLegal start.base other → HasMemory other → AnswersAll start units other more → sent ≡ more }
{}
