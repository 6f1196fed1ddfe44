//! A tree as text, in one form: no optional ends, one blank between two words and no other.

ghost use Rattle.std.specs.Prelude.{◌≡◌, ◌++◌, map, option_map, OnOk, IfOk};
ghost use Rattle.std.specs.List.{flat_map};
ghost use Rattle.fl_parse.specs.Tree.{name_of, number_of, field_of, shape_of, argument_of, directed_of, declaration_of, tree_of, alias_of};
ghost use Rattle.fl_parse.specs.Tree.{typedef_of, enum_of, struct_of, message_of, rpc_of};
ghost use Rattle.fl_parse.specs.RoundTrip.{IsShortestText};
ghost use Rattle.fl_parse.specs.Printed.{name_text, number_text, count_text, field_text, bound_text, shape_text, argument_text, directed_text};
ghost use Rattle.fl_parse.specs.Printed.{direction_text, kind_text, description_text, declaration_text, with_commas, printed};

use crate::tree::{
    Argument, Declaration, DirectedArgument, Direction, Field, MessageKind, Name, Number, Shape,
    Tree,
};
use std::alloc::{AllocError, Global};

/// Appends a number in its shortest form.
fn print_number(alloc: Global, out: &mut Vec<u8>, number: Number) -> Result<(), AllocError>
    ensures printed { OnOk result (out.new.items ≡ out.old.items ++ number_text (number_of number)) }
{
    let text = number.value.to_string(alloc)?;
    out.extend_from_slice(text.as_bytes())
}

/// Appends `[COUNT]`, or nothing.
fn print_count(alloc: Global, out: &mut Vec<u8>, count: Option<Number>) -> Result<(), AllocError>
    ensures printed { OnOk result (out.new.items ≡ out.old.items ++ count_text (option_map number_of count)) }
{
    let Some(count) = count else {
        return Ok(());
    };
    out.push(b'[')?;
    print_number(alloc, out, count)?;
    out.extend_from_slice(b"]")
}

/// Appends a field.
fn print_field(alloc: Global, out: &mut Vec<u8>, field: &Field) -> Result<(), AllocError>
    ensures printed { OnOk result (out.new.items ≡ out.old.items ++ field_text (field_of field.now)) }
{
    out.extend_from_slice(field.type_name.text)?;
    out.push(b' ')?;
    out.extend_from_slice(field.name.text)?;
    print_count(alloc, out, field.count)?;
    out.extend_from_slice(b";")
}

/// Appends what stands behind an argument's name.
fn print_shape(alloc: Global, out: &mut Vec<u8>, shape: &Shape) -> Result<(), AllocError>
    ensures printed { OnOk result (out.new.items ≡ out.old.items ++ shape_text (shape_of shape.now)) }
{
    match shape {
        Shape::Plain => Ok(()),
        Shape::Bounded(bound) => {
            out.push(b'[')?;
            print_number(alloc, out, *bound)?;
            out.extend_from_slice(b"]")
        }
        Shape::Sized { length, bound } => {
            out.push(b'[')?;
            out.extend_from_slice(length.text)?;
            if let Some(bound) = bound {
                out.push(b',')?;
                print_number(alloc, out, *bound)?;
            }
            out.extend_from_slice(b"]")
        }
    }
}

/// Appends a message's argument.
fn print_argument(alloc: Global, out: &mut Vec<u8>, argument: &Argument) -> Result<(), AllocError>
    ensures printed { OnOk result (out.new.items ≡ out.old.items ++ argument_text (argument_of argument.now)) }
{
    out.extend_from_slice(argument.type_name.text)?;
    out.push(b' ')?;
    out.extend_from_slice(argument.name.text)?;
    print_shape(alloc, out, &argument.shape)
}

/// Appends an rpc's argument.
fn print_directed(
    alloc: Global,
    out: &mut Vec<u8>,
    directed: &DirectedArgument,
) -> Result<(), AllocError>
    ensures printed { OnOk result (out.new.items ≡ out.old.items ++ directed_text (directed_of directed.now)) }
{
    match directed.direction {
        Direction::In => out.extend_from_slice(b"in ")?,
        Direction::Out => out.extend_from_slice(b"out ")?,
    }
    print_argument(alloc, out, &directed.argument)
}

/// Appends the names of an enum.
fn print_members(out: &mut Vec<u8>, members: &[Name]) -> Result<(), AllocError>
    ensures printed { OnOk result (out.new.items ≡ out.old.items ++ with_commas name_text (map name_of members.now)) }
{
    let [first, others @ ..] = members else {
        return Ok(());
    };
    out.extend_from_slice(first.text)?;
    for member in others {
        out.push(b',')?;
        out.extend_from_slice(member.text)?;
    }
    Ok(())
}

/// Appends the fields of a struct.
fn print_fields(alloc: Global, out: &mut Vec<u8>, fields: &[Field]) -> Result<(), AllocError>
    ensures printed { OnOk result (out.new.items ≡ out.old.items ++ flat_map field_text (map field_of fields.now)) }
{
    for field in fields {
        print_field(alloc, out, field)?;
    }
    Ok(())
}

/// Appends a message's arguments.
fn print_arguments(
    alloc: Global,
    out: &mut Vec<u8>,
    arguments: &[Argument],
) -> Result<(), AllocError>
    ensures printed { OnOk result (out.new.items ≡ out.old.items ++ with_commas argument_text (map argument_of arguments.now)) }
{
    let [first, others @ ..] = arguments else {
        return Ok(());
    };
    print_argument(alloc, out, first)?;
    for argument in others {
        out.push(b',')?;
        print_argument(alloc, out, argument)?;
    }
    Ok(())
}

/// Appends an rpc's arguments.
fn print_all_directed(
    alloc: Global,
    out: &mut Vec<u8>,
    arguments: &[DirectedArgument],
) -> Result<(), AllocError>
    ensures printed { OnOk result (out.new.items ≡ out.old.items ++ with_commas directed_text (map directed_of arguments.now)) }
{
    let [first, others @ ..] = arguments else {
        return Ok(());
    };
    print_directed(alloc, out, first)?;
    for argument in others {
        out.push(b',')?;
        print_directed(alloc, out, argument)?;
    }
    Ok(())
}

/// The word that a message is declared with.
fn kind_word(kind: MessageKind) -> &'static [u8]
    ensures word { result.now ≡ kind_text kind }
{
    match kind {
        MessageKind::Message => b"message",
        MessageKind::Call => b"call",
        MessageKind::Response => b"response",
    }
}

/// Appends `alias NEW OLD;`.
fn print_alias(out: &mut Vec<u8>, new: &Name, old: &Name) -> Result<(), AllocError>
    ensures printed { OnOk result (out.new.items ≡ out.old.items ++ declaration_text (alias_of (name_of new.now) (name_of old.now))) }
{
    out.extend_from_slice(b"alias ")?;
    out.extend_from_slice(new.text)?;
    out.push(b' ')?;
    out.extend_from_slice(old.text)?;
    out.extend_from_slice(b";")
}

/// Appends `typedef OLD NEW;` or `typedef OLD NEW[COUNT];`.
fn print_typedef(
    alloc: Global,
    out: &mut Vec<u8>,
    old: &Name,
    new: &Name,
    count: Option<Number>,
) -> Result<(), AllocError>
    ensures printed { OnOk result (out.new.items ≡ out.old.items
        ++ declaration_text (typedef_of (name_of old.now) (name_of new.now) (option_map number_of count))) }
{
    out.extend_from_slice(b"typedef ")?;
    out.extend_from_slice(old.text)?;
    out.push(b' ')?;
    out.extend_from_slice(new.text)?;
    print_count(alloc, out, count)?;
    out.extend_from_slice(b";")
}

/// Appends `typedef enum{MEMBERS}NAME;`.
fn print_enumeration(out: &mut Vec<u8>, members: &[Name], name: &Name) -> Result<(), AllocError>
    ensures printed { OnOk result (out.new.items ≡ out.old.items
        ++ declaration_text (enum_of (map name_of members.now) (name_of name.now))) }
{
    out.extend_from_slice(b"typedef ")?;
    out.extend_from_slice(b"enum{")?;
    print_members(out, members)?;
    out.push(b'}')?;
    out.extend_from_slice(name.text)?;
    out.extend_from_slice(b";")
}

/// Appends `typedef struct{FIELDS}NAME;`.
fn print_structure(
    alloc: Global,
    out: &mut Vec<u8>,
    fields: &[Field],
    name: &Name,
) -> Result<(), AllocError>
    ensures printed { OnOk result (out.new.items ≡ out.old.items
        ++ declaration_text (struct_of (map field_of fields.now) (name_of name.now))) }
{
    out.extend_from_slice(b"typedef ")?;
    out.extend_from_slice(b"struct{")?;
    print_fields(alloc, out, fields)?;
    out.push(b'}')?;
    out.extend_from_slice(name.text)?;
    out.extend_from_slice(b";")
}

/// Appends a message.
fn print_message(
    alloc: Global,
    out: &mut Vec<u8>,
    kind: MessageKind,
    name: &Name,
    args: &[Argument],
) -> Result<(), AllocError>
    ensures printed { OnOk result (out.new.items ≡ out.old.items
        ++ declaration_text (message_of kind (name_of name.now) (map argument_of args.now))) }
{
    out.extend_from_slice(kind_word(kind))?;
    out.push(b' ')?;
    out.extend_from_slice(name.text)?;
    out.push(b'(')?;
    print_arguments(alloc, out, args)?;
    out.extend_from_slice(b");")
}

/// Appends an rpc.
fn print_rpc(
    alloc: Global,
    out: &mut Vec<u8>,
    name: &Name,
    args: &[DirectedArgument],
) -> Result<(), AllocError>
    ensures printed { OnOk result (out.new.items ≡ out.old.items
        ++ declaration_text (rpc_of (name_of name.now) (map directed_of args.now))) }
{
    out.extend_from_slice(b"rpc ")?;
    out.extend_from_slice(name.text)?;
    out.push(b'(')?;
    print_all_directed(alloc, out, args)?;
    out.extend_from_slice(b");")
}

/// Appends a declaration.
fn print_declaration(
    alloc: Global,
    out: &mut Vec<u8>,
    declaration: &Declaration,
) -> Result<(), AllocError>
    ensures printed { OnOk result (out.new.items ≡ out.old.items ++ declaration_text (declaration_of declaration.now)) }
{
    match declaration {
        Declaration::Alias { new, old } => print_alias(out, new, old),
        Declaration::Typedef { old, new, count } => print_typedef(alloc, out, old, new, *count),
        Declaration::Enumeration { members, name } => print_enumeration(out, members, name),
        Declaration::Structure { fields, name } => print_structure(alloc, out, fields, name),
        Declaration::Message { kind, name, args } => print_message(alloc, out, *kind, name, args),
        Declaration::Rpc { name, args } => print_rpc(alloc, out, name, args),
    }
}

/// Appends declarations.
fn print_declarations(
    alloc: Global,
    out: &mut Vec<u8>,
    declarations: &[Declaration],
) -> Result<(), AllocError>
    ensures printed { OnOk result (out.new.items ≡ out.old.items ++ flat_map declaration_text (map declaration_of declarations.now)) }
{
    for declaration in declarations {
        print_declaration(alloc, out, declaration)?;
    }
    Ok(())
}

/// Appends a description, which may be missing.
fn print_description(out: &mut Vec<u8>, description: Option<&[u8]>) -> Result<(), AllocError>
    ensures printed { OnOk result (out.new.items ≡ out.old.items ++ description_text (option_map (λ d. d.now) description.entry)) }
{
    let Some(description) = description else {
        return Ok(());
    };
    out.extend_from_slice(description)
}

/// Appends a tree.
fn print_tree(alloc: Global, out: &mut Vec<u8>, tree: &Tree) -> Result<(), AllocError>
    ensures printed { OnOk result (out.new.items ≡ out.old.items ++ printed (tree_of tree.now)) }
{
    out.extend_from_slice(b"interface ")?;
    out.extend_from_slice(tree.name.text)?;
    print_description(out, tree.description)?;
    out.push(b'{')?;
    print_declarations(alloc, out, &tree.declarations)?;
    out.extend_from_slice(b"}")
}

/// The text of a tree: its tokens without the optional ends, one blank between two words and no other.
/// Where the tree comes from a text, as what [`crate::parse`] gives of lexed tokens does, this text is
/// lexed and parsed to the same tree, the places of its words and numbers aside, and no text of the
/// tree is shorter.
///
/// # Errors
///
/// Where memory runs out.
pub fn print(alloc: Global, tree: &Tree) -> Result<Vec<u8>, AllocError>
    ensures printed { IfOk result (λ text. text.items ≡ printed (tree_of tree.now)) }
    ensures again { IfOk result (λ text. IsShortestText (tree_of tree.now) text.items) }
{
    let mut out = Vec::new(alloc);
    print_tree(alloc, &mut out, tree)?;
    Ok(out)
}
