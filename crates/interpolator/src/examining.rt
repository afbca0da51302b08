//! What is known of a template before it is written: names, arguments, faults, extent and cost.
ghost use Rattle.std.specs.Prelude.{◌≡◌, ◌+◌, Some, length, map, option_map, IfErr, IfOk};
ghost use Rattle.std.specs.{List.All, Str.chars, Str.IsUtf8};
ghost use Rattle.interpolator_syntax.specs.{Arguments.argument_of, Places.outermost};
ghost use Rattle.interpolator_syntax.specs.{Faults.answer_of};
ghost use Rattle.interpolator_syntax.specs.{Faults.result_answer, Faults.fault, Faults.no_memory};
ghost use Rattle.interpolator_syntax.specs.{Faults.PlaceWithin, Nodes.as_forest, Nodes.nodes};
ghost use Rattle.interpolator_eval.specs.Meaning.{AskedNames.asked_names, Environments.environment};
ghost use Rattle.interpolator_pieces.specs.NodeChecks.{first_fault, text_faults};
ghost use Rattle.interpolator_pieces.specs.NodeCosts.{usize_cost, text_cost};
ghost use Rattle.interpolator_pieces.specs.NodeExtents.{forest_depth, forest_extent};
ghost use Rattle.interpolator_pieces.specs.Visits.{Walks, text_visits};
ghost use Rattle.interpolator_pieces.specs.{AllArguments.arguments_of, declared.cost.Limits.Limits};
ghost use Rattle.interpolator_pieces.specs.{NodeNames.name_texts, NodePlaces.argument_among};
ghost use Rattle.interpolator_pieces.specs.{NodeSamples.faults_over, Collecting.AnswersFirst};

use crate::template::Template;
use interpolator_eval::{Context, SampleEnvironment};
use interpolator_pieces::{
    Check, Cost, Deepest, FaultCollector, Limits, Names, Visitor, Widest, argument_among,
    collect_pieces, cost_of, push_arguments, walk_text,
};
use interpolator_syntax::{Argument, Cursor, Error};
use std::alloc::Global;

impl Template {
    /// Shows the visitor the pieces of the format, at every depth of groups.
    fn walk<V: Visitor>(&self, visitor: &mut V) -> Result<(), V::Stop>
        ensures walks { Walks (V.step self.now) visitor.old
            (text_visits (outermost (chars self.now))) visitor.new result }
        ensures utf8 { IsUtf8 self.now }
    {
        walk_text(visitor, self.text.as_str(), &self.pieces)
    }

    /// The names that the format looks up in its context, in order and with repeats: those of its
    /// arguments, and after the name of a list those in its item format and in its join. The empty
    /// name in an item format is the item, and is not among them.
    ///
    /// # Errors
    ///
    /// `NoMemory`: there is no memory for the names.
    ///
    /// # Example
    ///
    /// ```text
    /// template.names(alloc)?    // for `{a:i({}{b})({c})}{d`: a, b, c
    /// ```
    pub fn names(&self, alloc: Global) -> Result<Vec<String>, Error>
        ensures names { IfOk result (λ names. name_texts names.items
            ≡ asked_names (outermost (chars self.now))) }
        ensures refused { IfErr result (λ error. answer_of error ≡ no_memory) }
    {
        let mut names = Names {
            alloc,
            names: Vec::new(alloc),
        };
        self.walk(&mut names)?;
        Ok(names.names)
    }

    /// The arguments of the format, each as [`parse_argument`](crate::parse_argument) returns it;
    /// one in a group ends, at the latest, with its group. They come in the order of the text, at
    /// every depth: after an argument those of its item format, and then those of its join. An
    /// argument that is not closed is among them, a broken one is not.
    ///
    /// Names and groups are slices of the format, and places count its bytes. The text is read
    /// again.
    ///
    /// # Errors
    ///
    /// `NoMemory`: there is no memory for the arguments.
    ///
    /// # Example
    ///
    /// ```text
    /// for argument in &template.arguments(alloc)? {    // for `{a:i({}{b:>4})({c})}`
    ///     argument.name                                // "a", "", "b", "c"
    ///     argument.spec.width                          // of "b": Some(4)
    /// }
    /// ```
    pub fn arguments(&self, alloc: Global) -> Result<Vec<Argument<'_>>, Error>
        ensures arguments { IfOk result (λ arguments. map argument_of arguments.items
            ≡ arguments_of (outermost (chars self.now))) }
        ensures refused { IfErr result (λ error. answer_of error ≡ no_memory) }
    {
        let text = Cursor {
            place: 0,
            rest: self.text.as_str(),
        };
        let mut arguments = Vec::new(alloc);
        push_arguments(alloc, &mut arguments, text)?;
        Ok(arguments)
    }

    /// Reports the first fault that the format has by itself, in the order of the text and at every
    /// depth of groups: for an argument what is wrong with it, then the faults of its item format,
    /// then those of its join, then that it is not closed. Not every context meets each of them:
    /// with an empty list, `{a:i({z)}` is written without a fault. No memory is taken.
    ///
    /// If it returns `Ok`, the format never fails with `Parse` or `UnsupportedOption`, whatever its
    /// context. Faults that depend on values are reported by [`check_in`](Template::check_in).
    ///
    /// # Errors
    ///
    /// `Parse` and `UnsupportedOption`, each at its place in the text.
    ///
    /// # Example
    ///
    /// ```text
    /// Template::parse(alloc, "{a:i({z)}")?.check()   // Err(Parse(FormatSpecUnclosed(6)))
    /// ```
    pub fn check(&self) -> Result<(), Error>
        ensures first { result_answer result
            ≡ option_map fault (first_fault (text_faults (outermost (chars self.now)))) }
        ensures place { PlaceWithin (length self.now) (result_answer result) }
    {
        self.walk(&mut Check)
    }

    /// Reports the first fault that the format has by itself or against a sample, an example of the
    /// contexts that it will be written with: a row of example values, whose lists have an item of
    /// each kind. The faults come in the order of the text, at every depth of groups; those of an
    /// argument are
    ///
    /// 1. that nothing is under its name (`MissingValue`); that its slot is empty, has no text
    ///    under this trait, or is no list (`MissingTraitImpl`); that the value fails (`Fmt`);
    /// 2. what is wrong with it by itself;
    /// 3. the faults of its item format with each item of the sample's list, whatever the range,
    ///    or, without an item format, that an item cannot be displayed; then those of its join,
    ///    however many items there are;
    /// 4. that it is not closed.
    ///
    /// If it returns `Ok`, the format has no fault in any context that resembles the sample: see
    /// `interpolator_laws::samples`. Each argument is checked once with each value that
    /// the sample has for it.
    ///
    /// # Errors
    ///
    /// The first fault, at its place in the text; `NoMemory` if it is a missing value, and there is
    /// no memory for its name. No memory is taken for anything else.
    ///
    /// # Example
    ///
    /// ```text
    /// let sample = Pairs(&[("name", Formattable::display(&"Ann"))]);
    /// Template::parse(alloc, "{name:>8}{age}")?.check_in(alloc, &sample)
    /// // Err(MissingValue("age", 10))
    /// ```
    pub fn check_in<C: Context>(&self, alloc: Global, sample: &C) -> Result<(), Error>
        ensures first { AnswersFirst
            (faults_over C.Object.shows (C.finds sample.now) (outermost (chars self.now)))
            (result_answer result) }
        ensures place { PlaceWithin (length self.now) (result_answer result) }
    {
        let mut collector = FaultCollector::first(alloc);
        let environment = SampleEnvironment::outermost(alloc, sample);
        collect_pieces(
            &mut collector,
            &environment,
            self.text.as_str(),
            &self.pieces,
        )
    }

    /// All faults that the format has by itself or against a sample, in the order of
    /// [`check_in`](Template::check_in), each once, at its place.
    ///
    /// # Errors
    ///
    /// `NoMemory`: there is no memory for the faults.
    ///
    /// # Example
    ///
    /// ```text
    /// let sample = Pairs(&[("name", Formattable::display(&"Ann"))]);
    /// Template::parse(alloc, "{name:x}{age}{b")?.faults_in(alloc, &sample)?
    /// // MissingTraitImpl(LowerHex, 7), MissingValue("age", 9), Parse(FormatSpecUnclosed(14))
    /// ```
    pub fn faults_in<C: Context>(&self, alloc: Global, sample: &C) -> Result<Vec<Error>, Error>
        ensures all { IfOk result (λ errors. map answer_of errors.items ≡ map fault
            (faults_over C.Object.shows (C.finds sample.now) (outermost (chars self.now)))) }
        ensures places { IfOk result (λ errors.
            All (λ answer. PlaceWithin (length self.now) (Some answer)) (map answer_of errors.items)) }
        ensures refused { IfErr result (λ error. answer_of error ≡ no_memory) }
    {
        let mut collector = FaultCollector::all(alloc);
        let environment = SampleEnvironment::outermost(alloc, sample);
        collect_pieces(
            &mut collector,
            &environment,
            self.text.as_str(),
            &self.pieces,
        )?;
        Ok(collector.into_kept())
    }

    /// The greatest width or precision in the format, at any depth of groups; 0 if it has none. No
    /// memory is taken.
    ///
    /// # Example
    ///
    /// ```text
    /// template.widest()    // for `{x:>5}{y:.12e}{l:300i({:7})}`: 300
    /// ```
    pub fn widest(&self) -> usize
        ensures widest { result ≡ forest_extent (as_forest (nodes (outermost (chars self.now)))) }
    {
        let mut widest = Widest(0);
        match self.walk(&mut widest) {
            Ok(()) => widest.0,
            Err(never) => match never {},
        }
    }

    /// How deep the groups of the format are nested; 0 without groups. No memory is taken.
    ///
    /// # Example
    ///
    /// ```text
    /// template.depth()    // for `{a:i#({b:i(x)})#}{c:i()}`: 2
    /// ```
    pub fn depth(&self) -> usize
        ensures depth { result ≡ forest_depth (as_forest (nodes (outermost (chars self.now)))) }
    {
        let mut deepest = Deepest(0);
        match self.walk(&mut deepest) {
            Ok(()) => deepest.0,
            Err(never) => match never {},
        }
    }

    /// The innermost argument that has a place of the format, if there is one: its first byte,
    /// which is its opening brace, and the byte after its last. An argument has the places after
    /// its opening brace, up to and including its closing brace; one that is not closed, up to and
    /// including its end. No memory is taken.
    ///
    /// That it is the innermost is a law, `interpolator_laws::places`.
    ///
    /// # Example
    ///
    /// ```text
    /// template.argument_at(8)    // for `{a:i({:?})} {b}`, at the `}` of `{:?}`: Some((5, 9))
    /// ```
    pub fn argument_at(&self, place: usize) -> Option<(usize, usize)>
        ensures argument { result
            ≡ argument_among place (as_forest (nodes (outermost (chars self.now)))) }
    {
        argument_among(&self.pieces, place)
    }

    /// What writing the format costs at most, in any context whose values are within the limits:
    /// how many characters are written, how many pieces are gone through, and how many characters
    /// are in buffers at one time. For each count, the greatest `usize` means that many or more.
    /// Every item and every join counts, and for an argument the longest text that a value can have
    /// under its trait, width and precision. No memory is taken.
    ///
    /// # Example
    ///
    /// ```text
    /// let limits = Limits { text: 10, items: 3 };
    /// template.cost(&limits)    // for `{l:i({:?})(, )}`: 3 * 62 + 2 * 2 characters, and
    ///                           // 1 + 3 * 1 + 2 * 1 pieces
    /// ```
    pub fn cost(&self, limits: &Limits) -> Cost
        ensures cost { result
            ≡ usize_cost (text_cost limits.now (outermost (chars self.now))) }
    {
        cost_of(self.text.as_str(), &self.pieces, limits)
    }
}
