// The neighbour that an entry names.
ghost use Rattle.std.specs.Prelude.{◌≡◌, ◌<◌, length, slice_index_or, All};
ghost use Rattle.std.specs.List.{find};
ghost use Rattle.labels.specs.State.{blank};
ghost use Rattle.labels.specs.Steps.{leads_by, Chosen};

use crate::record::Stage;
use crate::searching::Search;
use frame::arc::Arc;

impl Search<'_> {
    // Whether an arc leads back: to a place that has the hub, on a way of this distance.
    fn leads_back(&self, arc: &Arc, distance: u32) -> bool
        requires { arc.now.to < length self.now.records.now }
        ensures { result ≡ leads_by self.now.round distance (slice_index_or self.now.records.now arc.now.to blank) arc.now.length }
    {
        let mark = self.records[arc.to as usize];
        matches!(mark.stage, Stage::Hub)
            && mark.round == self.round
            && u64::from(arc.length) + u64::from(mark.distance) == u64::from(distance)
    }

    // The first arc that leads back.
    fn first_back(&self, arcs: &[Arc], distance: u32) -> Option<Arc>
        requires { All (λ a. a.to < length self.now.records.now) arcs.now }
        ensures { result ≡ find (λ a. leads_by self.now.round distance (slice_index_or self.now.records.now a.to blank) a.length) arcs.now }
    {
        arcs.iter()
            .copied()
            .find(|arc| self.leads_back(arc, distance))
    }

    // The neighbour that the entry of a place names.
    pub(crate) fn neighbour_of(&self, arcs: &[Arc], source: u32, place: u32, distance: u32) -> u32
        requires { All (λ a. a.to < length self.now.records.now) arcs.now }
        ensures { Chosen self.now.round self.now.records.now arcs.now source place distance result }
    {
        if place == source {
            return place;
        }
        self.first_back(arcs, distance).map_or(place, |arc| arc.to)
    }
}
