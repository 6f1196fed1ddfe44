//! Declarations, each by its rules in their order.

ghost use Rattle.std.specs.Prelude.{◌≡◌, ◌≤◌, ◌∷◌, [], ◌++◌, OnOk, IfOk, IfErr, None, true, false, length, map, option_map};
ghost use Rattle.fl_lex.specs.Words.{is_name};
ghost use Rattle.std.specs.Str.{bytes_eq};
ghost use Rattle.fl_interface.specs.Interface.{arg_type_of};
ghost use Rattle.fl_check.specs.Known.{after, argument_type, call_name, response_name, ins, outs, message_from, messages_of};
ghost use Rattle.fl_interface.specs.Limits.{is_among};
ghost use Rattle.fl_check.specs.Places.{message_names, message_name_place, rpc_name_place, whole_message_place, declaration_places, first_look};
ghost use Rattle.fl_check.specs.Places.{argument_places, arguments_of, some_too_long};
ghost use Rattle.fl_check.specs.Checks.{first_fault};
ghost use Rattle.fl_check.specs.declared.fault.CheckFault.TheVariants.{Memory};
ghost use Rattle.fl_check.specs.Faults.{Tells, ComesAfter};
ghost use Rattle.fl_check.specs.Views.{before_of};
ghost use Rattle.fl_parse.specs.Tree.{name_of, number_of, field_of, argument_of, directed_of, declaration_of, alias_of, typedef_of, enum_of};
ghost use Rattle.fl_parse.specs.Tree.{struct_of, message_of, rpc_of};

use crate::declared::Declared;
use crate::fault::{CheckFault, Rule};
use crate::measured::Measured;
use crate::parts::{apply_count, check_members};
use crate::types::refuse;
use crate::words::join;
use fl_interface::{ArgType, MAX_MESSAGES};
use fl_lex::MAX_WORD;
use fl_parse::{Argument, Declaration, DirectedArgument, Field, MessageKind, Name, Number};
use std::alloc::Global;

/// Bytes of the longest name of an rpc: a word still with `_response` behind it.
const MAX_RPC_NAME: usize = MAX_WORD - 9;

/// The messages of a declaration, one of which has a payload that is too long or none has.
#[tactic(auto, unfolding(crate::specs::Checks::first_fault, crate::specs::Places::whole_message_place))]
fn check_whole_message(name: &Name, too_long: bool) -> Result<(), CheckFault>
    ensures sound { OnOk result (first_fault (whole_message_place (name_of name.now) too_long ∷ []) ≡ None) }
    ensures fault { IfErr result (λ e. Tells e (first_fault (whole_message_place (name_of name.now) too_long ∷ []))) }
{
    if too_long {
        return Err(refuse(Rule::TooLong, name.at));
    }
    Ok(())
}

impl<'a> Declared<'a> {
    #[tactic(auto, unfolding(crate::specs::Checks::first_fault, crate::specs::Places::message_name_place))]
    fn check_message_name(&self, name: &Name) -> Result<(), CheckFault>
        ensures absent { OnOk result (is_among (message_names (before_of self.now)) name.now.text.now ≡ false) }
        ensures sound { OnOk result (first_fault (message_name_place (before_of self.now) (name_of name.now) ∷ []) ≡ None) }
        ensures fault { IfErr result (λ e. Tells e (first_fault (message_name_place (before_of self.now) (name_of name.now) ∷ []))) }
        ensures memory { IfErr result (λ e. ComesAfter e (message_name_place (before_of self.now) (name_of name.now) ∷ [])) }
    {
        if self.has_message(name.text) {
            return Err(refuse(Rule::MessageNameTaken, name.at));
        }
        if self.count_messages() >= MAX_MESSAGES {
            return Err(refuse(Rule::TooMany, name.at));
        }
        Ok(())
    }

    #[tactic(auto, unfolding(crate::specs::Checks::first_fault, crate::specs::Places::rpc_name_place))]
    fn check_rpc_name(&self, name: &Name, call: &[u8], response: &[u8]) -> Result<(), CheckFault>
        requires call { call.now ≡ call_name (name_of name.now) }
        requires response { response.now ≡ response_name (name_of name.now) }
        ensures no_call { OnOk result (is_among (message_names (before_of self.now)) call.now ≡ false) }
        ensures no_response { OnOk result (is_among (message_names (before_of self.now)) response.now ≡ false) }
        ensures short { OnOk result (length name.now.text.now ≤ 55) }
        ensures sound { OnOk result (first_fault (rpc_name_place (before_of self.now) (name_of name.now) ∷ []) ≡ None) }
        ensures fault { IfErr result (λ e. Tells e (first_fault (rpc_name_place (before_of self.now) (name_of name.now) ∷ []))) }
    {
        if self.has_message(call) || self.has_message(response) {
            return Err(refuse(Rule::MessageNameTaken, name.at));
        }
        if self.count_messages() >= MAX_MESSAGES - 1 || name.text.len() > MAX_RPC_NAME {
            return Err(refuse(Rule::TooMany, name.at));
        }
        Ok(())
    }

    #[tactic(auto, using(crate::proofs::FirstFaults::places))]
    fn declare_alias(&mut self, new: &Name<'a>, old: &Name) -> Result<(), CheckFault>
        ensures sound { OnOk result (first_fault (declaration_places (before_of self.old) (alias_of (name_of new.now) (name_of old.now))) ≡ None) }
        ensures after { OnOk result (before_of self.new ≡ after (before_of self.old) (alias_of (name_of new.now) (name_of old.now))) }
        ensures fault { IfErr result (λ e. Tells e (first_fault (declaration_places (before_of self.old) (alias_of (name_of new.now) (name_of old.now))))) }
        ensures memory { IfErr result (λ e. ComesAfter e (first_look (before_of self.old) (alias_of (name_of new.now) (name_of old.now)))) }
    {
        self.check_new_type(new, false)?;
        let measured = self.check_fixed_type(old)?;
        self.add_type(new, measured)
    }

    #[tactic(auto, using(crate::proofs::FirstFaults::places))]
    fn declare_typedef(
        &mut self,
        alloc: Global,
        old: &Name,
        new: &Name<'a>,
        count: Option<Number>,
    ) -> Result<(), CheckFault>
        ensures sound { OnOk result (first_fault (declaration_places (before_of self.old)
            (typedef_of (name_of old.now) (name_of new.now) (option_map number_of count))) ≡ None) }
        ensures after { OnOk result (before_of self.new ≡ after (before_of self.old)
            (typedef_of (name_of old.now) (name_of new.now) (option_map number_of count))) }
        ensures fault { IfErr result (λ e. Tells e (first_fault
            (declaration_places (before_of self.old) (typedef_of (name_of old.now) (name_of new.now) (option_map number_of count))))) }
        ensures memory { IfErr result (λ e. ComesAfter e (first_look (before_of self.old)
            (typedef_of (name_of old.now) (name_of new.now) (option_map number_of count)))) }
    {
        let element = self.check_fixed_type(old)?;
        self.check_new_type(new, false)?;
        let measured = apply_count(alloc, element, count)?;
        self.add_type(new, measured)
    }

    #[tactic(auto, using(crate::proofs::FirstFaults::places))]
    fn declare_enumeration(
        &mut self,
        alloc: Global,
        names: &[Name],
        name: &Name<'a>,
    ) -> Result<(), CheckFault>
        ensures sound { OnOk result (first_fault (declaration_places (before_of self.old) (enum_of (map name_of names.now) (name_of name.now))) ≡ None) }
        ensures after { OnOk result (before_of self.new ≡ after (before_of self.old) (enum_of (map name_of names.now) (name_of name.now))) }
        ensures fault { IfErr result (λ e. Tells e (first_fault
            (declaration_places (before_of self.old) (enum_of (map name_of names.now) (name_of name.now))))) }
        ensures memory { IfErr result (λ e. ComesAfter e (first_look (before_of self.old) (enum_of (map name_of names.now) (name_of name.now)))) }
    {
        check_members(alloc, names)?;
        self.check_new_type(name, names.is_empty())?;
        let Ok(count) = u32::try_from(names.len()) else {
            return Err(CheckFault::Memory);
        };
        self.add_type(name, Measured::of_enum(count))
    }

    #[tactic(auto, using(crate::proofs::FirstFaults::places))]
    fn declare_struct(
        &mut self,
        alloc: Global,
        fields: &[Field<'a>],
        name: &Name<'a>,
    ) -> Result<(), CheckFault>
        ensures sound { OnOk result (first_fault (declaration_places (before_of self.old) (struct_of (map field_of fields.now) (name_of name.now))) ≡ None) }
        ensures after { OnOk result (before_of self.new ≡ after (before_of self.old) (struct_of (map field_of fields.now) (name_of name.now))) }
        ensures fault { IfErr result (λ e. Tells e (first_fault
            (declaration_places (before_of self.old) (struct_of (map field_of fields.now) (name_of name.now))))) }
        ensures memory { IfErr result (λ e. ComesAfter e (first_look (before_of self.old) (struct_of (map field_of fields.now) (name_of name.now)))) }
    {
        let laid = self.check_structure(alloc, fields)?;
        self.check_new_type(name, fields.is_empty())?;
        let measured = laid.into_struct(alloc)?;
        self.add_type(name, measured)
    }

    /// The types of a message's arguments, whose payload isn't too long.
    #[tactic(auto, using(crate::proofs::FirstFaults::places))]
    fn check_payload(
        &self,
        alloc: Global,
        name: &Name,
        args: &[Argument<'a>],
    ) -> Result<Vec<ArgType>, CheckFault>
        ensures sound { OnOk result (first_fault (argument_places (before_of self.now) [] 0 (map argument_of args.now)
            ++ whole_message_place (name_of name.now) (some_too_long
            (message_from (before_of self.now) name.now.text.now (map argument_of args.now) ∷ [])) ∷ []) ≡ None) }
        ensures stands { IfOk result (λ ts. map arg_type_of ts.items ≡ map (argument_type (before_of self.now)) (map argument_of args.now)) }
        ensures fault { IfErr result (λ e. Tells e (first_fault (argument_places (before_of self.now) [] 0 (map argument_of args.now)
            ++ whole_message_place (name_of name.now) (some_too_long
            (message_from (before_of self.now) name.now.text.now (map argument_of args.now) ∷ [])) ∷ []))) }
    {
        let payload = self.check_arguments(alloc, args)?;
        check_whole_message(name, payload.is_too_long())?;
        Ok(payload.args)
    }

    #[tactic(auto, using(crate::proofs::FirstFaults::places))]
    fn declare_message(
        &mut self,
        alloc: Global,
        kind: MessageKind,
        name: &Name,
        args: &[Argument<'a>],
    ) -> Result<(), CheckFault>
        ensures sound { OnOk result (first_fault (declaration_places (before_of self.old)
            (message_of kind (name_of name.now) (map argument_of args.now))) ≡ None) }
        ensures after { OnOk result (before_of self.new ≡ after (before_of self.old) (message_of kind (name_of name.now) (map argument_of args.now))) }
        ensures fault { IfErr result (λ e. Tells e (first_fault
            (declaration_places (before_of self.old) (message_of kind (name_of name.now) (map argument_of args.now))))) }
        ensures memory { IfErr result (λ e. ComesAfter e (first_look (before_of self.old)
            (message_of kind (name_of name.now) (map argument_of args.now)))) }
    {
        self.check_message_name(name)?;
        let types = self.check_payload(alloc, name, args)?;
        self.push_message(name.text.to_vec(alloc)?, types)
    }

    /// The names of an rpc's call and response, which no message has.
    #[tactic(auto, using(crate::proofs::FirstFaults::places))]
    fn name_rpc(&self, alloc: Global, name: &Name) -> Result<(Vec<u8>, Vec<u8>), CheckFault>
        ensures call { IfOk result (λ n. n.0.items ≡ call_name (name_of name.now)) }
        ensures response { IfOk result (λ n. n.1.items ≡ response_name (name_of name.now)) }
        ensures words { IfOk result (λ n. (is_name n.0.items ≡ true) × (is_name n.1.items ≡ true)) }
        ensures no_call { IfOk result (λ n. is_among (message_names (before_of self.now)) n.0.items ≡ false) }
        ensures no_response { IfOk result (λ n. is_among (message_names (before_of self.now)) n.1.items ≡ false) }
        ensures sound { OnOk result (first_fault (rpc_name_place (before_of self.now) (name_of name.now) ∷ []) ≡ None) }
        ensures fault { IfErr result (λ e. Tells e (first_fault (rpc_name_place (before_of self.now) (name_of name.now) ∷ []))) }
    {
        let call = join(alloc, name.text, b"_call".as_slice())?;
        let response = join(alloc, name.text, b"_response".as_slice())?;
        self.check_rpc_name(name, &call, &response)?;
        Ok((call, response))
    }

    /// The types of an rpc's arguments, those of its call and of its response, whose payloads aren't too long.
    #[tactic(auto, using(crate::proofs::FirstFaults::places))]
    fn check_payloads(
        &self,
        alloc: Global,
        name: &Name,
        args: &[DirectedArgument<'a>],
    ) -> Result<(Vec<ArgType>, Vec<ArgType>), CheckFault>
        ensures sound { OnOk result (first_fault (argument_places (before_of self.now) [] 0 (arguments_of (map directed_of args.now))
            ++ whole_message_place (name_of name.now) (some_too_long
            (messages_of (before_of self.now) (rpc_of (name_of name.now) (map directed_of args.now)))) ∷ []) ≡ None) }
        ensures ins { IfOk result (λ h. map arg_type_of h.0.items ≡ map (argument_type (before_of self.now)) (ins (map directed_of args.now))) }
        ensures outs { IfOk result (λ h. map arg_type_of h.1.items ≡ map (argument_type (before_of self.now)) (outs (map directed_of args.now))) }
        ensures fault { IfErr result (λ e. Tells e (first_fault (argument_places (before_of self.now) [] 0 (arguments_of (map directed_of args.now))
            ++ whole_message_place (name_of name.now) (some_too_long
            (messages_of (before_of self.now) (rpc_of (name_of name.now) (map directed_of args.now)))) ∷ []))) }
    {
        let halves = self.check_directed(alloc, args)?;
        check_whole_message(name, halves.is_too_long())?;
        Ok((halves.ins.args, halves.outs.args))
    }

    /// Adds the two messages of an rpc.
    fn push_rpc(
        &mut self,
        call: Vec<u8>,
        ins: Vec<ArgType>,
        response: Vec<u8>,
        outs: Vec<ArgType>,
    ) -> Result<(), CheckFault>
        requires no_call { is_among (message_names (before_of self.old)) call.items ≡ false }
        requires no_response { is_among (message_names (before_of self.old)) response.items ≡ false }
        requires two { bytes_eq call.items response.items ≡ false }
        requires call { is_name call.items ≡ true }
        requires response { is_name response.items ≡ true }
        ensures types { OnOk result ((before_of self.new).types ≡ (before_of self.old).types) }
        ensures messages { OnOk result ((before_of self.new).messages ≡ (before_of self.old).messages
            ++ record { name = call.items; args = map arg_type_of ins.items }
            ∷ (record { name = response.items; args = map arg_type_of outs.items } ∷ [])) }
        ensures memory { IfErr result (λ e. e ≡ Memory) }
    {
        self.push_message(call, ins)?;
        self.push_message(response, outs)
    }

    #[tactic(auto, using(crate::proofs::FirstFaults::places))]
    fn declare_rpc(
        &mut self,
        alloc: Global,
        name: &Name,
        args: &[DirectedArgument<'a>],
    ) -> Result<(), CheckFault>
        ensures sound { OnOk result (first_fault (declaration_places (before_of self.old) (rpc_of (name_of name.now) (map directed_of args.now))) ≡ None) }
        ensures after { OnOk result (before_of self.new ≡ after (before_of self.old) (rpc_of (name_of name.now) (map directed_of args.now))) }
        ensures fault { IfErr result (λ e. Tells e (first_fault
            (declaration_places (before_of self.old) (rpc_of (name_of name.now) (map directed_of args.now))))) }
        ensures memory { IfErr result (λ e. ComesAfter e (first_look (before_of self.old) (rpc_of (name_of name.now) (map directed_of args.now)))) }
    {
        let (call, response) = self.name_rpc(alloc, name)?;
        let (ins, outs) = self.check_payloads(alloc, name, args)?;
        self.push_rpc(call, ins, response, outs)
    }

    /// One more declaration.
    pub fn declare(
        &mut self,
        alloc: Global,
        declaration: &Declaration<'a>,
    ) -> Result<(), CheckFault>
        ensures sound { OnOk result (first_fault (declaration_places (before_of self.old) (declaration_of declaration.now)) ≡ None) }
        ensures after { OnOk result (before_of self.new ≡ after (before_of self.old) (declaration_of declaration.now)) }
        ensures fault { IfErr result (λ e. Tells e (first_fault (declaration_places (before_of self.old) (declaration_of declaration.now)))) }
        ensures memory { IfErr result (λ e. ComesAfter e (first_look (before_of self.old) (declaration_of declaration.now))) }
    {
        match declaration {
            Declaration::Alias { new, old } => self.declare_alias(new, old),
            Declaration::Typedef { old, new, count } => self.declare_typedef(
                alloc, old, new, *count,
            ),
            Declaration::Enumeration { members, name } => self.declare_enumeration(
                alloc, members, name,
            ),
            Declaration::Structure { fields, name } => self.declare_struct(alloc, fields, name),
            Declaration::Message { kind, name, args } => self.declare_message(
                alloc, *kind, name, args,
            ),
            Declaration::Rpc { name, args } => self.declare_rpc(alloc, name, args),
        }
    }
}
