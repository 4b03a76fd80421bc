//! Where a packet goes, and in which class.
ghost use Rattle.std.specs.Prelude.{◌≡◌, ◌<◌, find};
ghost use Rattle.std.specs.Option.{option_map};
ghost use Rattle.cq_route.specs.Route.{class_for, is_met, is_to, output_for, route};
ghost use Rattle.cq_route.specs.Tables.{AreTables, classes_of, ports_of};

use crate::{AddressRow, RuleRow, Tables};
use cq_base::{Class, Port};
use cq_frame::{FrameParts, parts};

impl Tables {
    /// The output and the class of a packet that arrives at the input with these bytes.
    ///
    /// Its output is that of the row with the address to which the frame goes, or the default output
    /// where there is none. Its class is that of the first rule of which it has every stated field, or
    /// the default class where there is none. A field that the frame does not have meets no rule that
    /// states it.
    #[tactic(auto, using(crate::proofs::Bounds::output_below, crate::proofs::Bounds::class_below), unfolding(crate::specs::Route::route))]
    pub fn route(&self, input: Port, bytes: &[u8]) -> (Port, Class)
        ensures route { result ≡ route self.now input bytes.now }
        ensures output { AreTables self.now → result.0 < ports_of self.now.setup }
        ensures class { AreTables self.now → result.1 < classes_of self.now.setup }
    {
        let fields = parts(bytes);
        (self.output_for(fields.dest), self.class_for(input, &fields))
    }

    // The first row with the address to which a frame goes.
    fn row_for(&self, dest: Option<[u8; 6]>) -> Option<&AddressRow>
        ensures { option_map (λ row. row.now) result ≡ find (is_to dest) self.now.addresses }
    {
        self.addresses
            .as_slice()
            .iter()
            .find(|row| dest == Some(row.mac))
    }

    fn output_for(&self, dest: Option<[u8; 6]>) -> Port
        ensures { result ≡ output_for self.now dest }
    {
        self.row_for(dest)
            .map_or(self.default_output, |row| row.output)
    }

    // The first rule that a packet meets which arrives at the input with these fields.
    fn rule_for(&self, input: Port, fields: &FrameParts) -> Option<&RuleRow>
        ensures { option_map (λ rule. rule.now) result ≡ find (is_met input fields.now) self.now.rules }
    {
        self.rules
            .as_slice()
            .iter()
            .find(|rule| rule.is_met(input, fields))
    }

    /// The class of a packet that arrives at the input with these fields.
    pub(crate) fn class_for(&self, input: Port, fields: &FrameParts) -> Class
        ensures { result ≡ class_for self.now input fields.now }
    {
        self.rule_for(input, fields)
            .map_or(self.default_class, |rule| rule.class)
    }
}

impl RuleRow {
    fn is_met(&self, input: Port, fields: &FrameParts) -> bool
        ensures { result ≡ is_met input fields.now self.now }
    {
        self.input.is_none_or(|stated| stated == input)
            && self.pcp.is_none_or(|stated| fields.pcp == Some(stated))
            && self
                .ether_type
                .is_none_or(|stated| fields.ether_type == Some(stated))
            && self.dscp.is_none_or(|stated| fields.dscp == Some(stated))
    }
}
